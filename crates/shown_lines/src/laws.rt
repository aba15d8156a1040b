//! Laws of the definitions, as contracts of functions without a body.
ghost use Rattle.std.specs.Prelude.{◌≡◌, ℕ, List};
ghost use Rattle.shown_lines.specs.Shown.{AreShown};

/// Lines have at most one shown text, and one count of those that are refused: no line can be read in two ways.
pub fn lines_have_one_shown_text()
    ensures { (lines : List (List ℕ)) (first second : List ℕ) (refused refused' : ℕ)
        → AreShown lines first refused → AreShown lines second refused'
        → (first ≡ second) × (refused ≡ refused') }
{}
