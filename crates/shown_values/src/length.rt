//! How many bytes a content has.

ghost use Rattle.std.specs.Prelude.{◌≡◌, ◌≤◌, ◌^◌, MatchOption};
ghost use Rattle.b2_model.specs.State.{length_of};
ghost use Rattle.new_versions.specs.Decided.{extent_len};

use b2_base::Extent;

/// The bytes of the pieces together, where their number fits.
pub fn content_length(pieces: &[Extent]) -> Option<u64>
    ensures { MatchOption result (2 ^ 64 ≤ length_of extent_len pieces.now)
        (λ n. n ≡ length_of extent_len pieces.now) }
{
    let mut total = 0u64;
    'pieces: for piece in pieces {
        total = total.checked_add(piece.len)?;
    }
    Some(total)
}
