//! Parts of texts that are given as bytes.

ghost use Rattle.std.specs.Prelude.{◌≡◌, ◌≢◌, ◌++◌, List, ℕ, MatchOption, All};
ghost use Rattle.b2_base.specs.Bytes.{IsCutAt};

use memchr::memchr;

/// Cuts the text at the first such byte.
pub fn cut_at(byte: u8, text: &[u8]) -> Option<(&[u8], &[u8])>
    ensures { MatchOption result
        (All (λ b. b ≢ byte) text.now)
        (λ p. IsCutAt byte text.now p.0.now p.1.now) }
{
    let at = memchr(byte, text)?;
    Some((&text[..at], &text[at + 1..]))
}

/// What follows the prefix, where the text begins with it.
pub fn behind<'a>(prefix: &[u8], text: &'a [u8]) -> Option<&'a [u8]>
    ensures { MatchOption result
        ((rest : List ℕ) → text.now ≢ prefix.now ++ rest)
        (λ rest. text.now ≡ prefix.now ++ rest.now) }
{
    text.strip_prefix(prefix)
}
