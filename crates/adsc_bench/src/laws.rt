//! Laws of the definitions, as contracts of functions without a body.
ghost use Rattle.std.specs.Prelude.{◌≡◌, ℕ, List};
ghost use Rattle.adsc_bench.specs.Showing.{IsShownText};

/// An input has at most one shown text.
pub fn an_input_has_one_shown_text()
    ensures { (bytes first second : List ℕ) → IsShownText bytes first → IsShownText bytes second → first ≡ second }
{}
