//! Laws on scripts.

ghost use Rattle.std.specs.Prelude.{◌≡◌, ℕ, List};
ghost use Rattle.event_script.specs.declared.line.Said.{Said};
ghost use Rattle.event_script.specs.Line.{Line, ReadsAs};
ghost use Rattle.event_script.specs.Script.{ReadsScript, HasFirstWrong};

/// A text reads as one line at most, whichever way a piece is written.
pub fn one_reading()
    ensures { (text : List ℕ) (a b : Said) → ReadsAs text a → ReadsAs text b → a ≡ b }
{}

/// No script has a wrong line; bytes have one first wrong line at most, and they are one list of
/// lines.
pub fn one_first_wrong_line()
    ensures none { (bytes : List ℕ) (lines : List Line) (n : ℕ) → ReadsScript bytes lines
        → HasFirstWrong bytes n → ⊥ }
    ensures first { (bytes : List ℕ) (m n : ℕ) → HasFirstWrong bytes m → HasFirstWrong bytes n
        → m ≡ n }
    ensures lines { (bytes : List ℕ) (a b : List Line) → ReadsScript bytes a
        → ReadsScript bytes b → a ≡ b }
{}
