//! Escaped names are read back.

ghost use Rattle.std.specs.Prelude.{◌≡◌, ◌<◌, List, ℕ, All, length};
ghost use Rattle.name_rules.specs.FileName.{IsFileName};
ghost use Rattle.name_rules.specs.Escape.{IsSent, encoded_name};
ghost use Rattle.name_rules.specs.Decode.{HasNoBadEscape, IsEscapeFault, decoded_name};
ghost use Rattle.name_rules.specs.declared.decode.EscapeFault.{EscapeFault};

/// What is escaped is read back, and a name that is escaped has no fault: so `decode_name` of `encode_name`
/// is the name. An escaped name holds plain bytes and percent signs alone, and each percent sign begins an
/// escape.
#[tactic(auto, using(crate::proofs::Back::decoded_back, crate::proofs::Back::reads_back, crate::proofs::Back::all_sent, crate::proofs::Back::none_bad))]
pub fn escaped_names()
    ensures back { (bytes : List ℕ) → All (λ byte. byte < 256) bytes
        → decoded_name (encoded_name bytes) ≡ bytes }
    ensures whole { (bytes : List ℕ) (fault : EscapeFault) → IsFileName bytes
        → All (λ byte. byte < 256) bytes → IsEscapeFault (encoded_name bytes) fault → ⊥ }
    ensures bytes { (bytes : List ℕ) → All IsSent (encoded_name bytes) }
    ensures escapes { (bytes : List ℕ)
        → HasNoBadEscape (encoded_name bytes) (length (encoded_name bytes)) }
{}
