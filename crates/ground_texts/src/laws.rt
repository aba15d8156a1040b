//! Laws of the definitions, as contracts of functions without a body.

ghost use Rattle.std.specs.Prelude.{◌≡◌, ℕ, List};
ghost use Rattle.ground_texts.specs.Readings.{ReadsText};
ghost use Rattle.ground_texts.specs.declared.ground_text.GroundText.{GroundText as GroundTextValue};

/// A text says at most one thing: it isn't both refused and right, has one first bad place, or carries one thing that is read in
/// one way.
pub fn a_text_says_one_thing()
    ensures { (text : List ℕ) (one other : GroundTextValue)
        → ReadsText text one → ReadsText text other → one ≡ other }
{}

/// A text says something, whatever numbers stand in it and however many: it has a first bad place,
/// or it is the text of an envelope whose payload or characters are read.
pub fn each_text_says_something()
    ensures { (text : List ℕ) → (reading : GroundTextValue) × ReadsText text reading }
{}
