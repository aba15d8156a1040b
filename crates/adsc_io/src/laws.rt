//! Laws of the definitions, as contracts of functions without a body.
ghost use Rattle.std.specs.Prelude.{◌≡◌, ℕ, List};
ghost use Rattle.adsc_io.specs.Inputs.{IsLineAt};
ghost use Rattle.adsc_io.specs.declared.line.Line.{Line as LineValue};
ghost use Rattle.adsc_io.specs.declared.line.Line.TheVariants.{Text};

/// At each number of an input stands one thing, and where it is a line, one text.
pub fn a_number_has_one_line()
    ensures { (bytes first second : List ℕ) (number : ℕ) (one other : LineValue) → IsLineAt bytes number one first → IsLineAt bytes number other second
        → (one ≡ other) × (one ≡ Text → first ≡ second) }
{}
