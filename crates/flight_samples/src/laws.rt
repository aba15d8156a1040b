//! Laws of the definitions, as contracts of functions without a body.

ghost use Rattle.std.specs.Prelude.{◌≡◌, ◌↔◌, ◌^◌, ◌<◌, ℕ, ℤ, List, FitsSigned};
ghost use Rattle.std.specs.Fmt.{decimal, signed_decimal};
ghost use Rattle.std.specs.Int.{w64};
ghost use Rattle.flight_samples.specs.Decimals.{IsIntegerText, IsNaturalText};
ghost use Rattle.flight_samples.specs.SampleText.{IsSampleText, sample_text};
ghost use Rattle.flight_samples.specs.Samples.{values_of};
ghost use Rattle.flight_samples.specs.declared.sample.Sample.{Sample as SampleValue};

/// Samples with the same values are one sample.
pub fn a_sample_is_its_values()
    ensures { (one other : SampleValue) → values_of one ≡ values_of other → one ≡ other }
{}

/// A sample has one text: its values as the standard library writes numbers, with commas between them. So what is written for a
/// sample in that way is read as that sample again, column by column, and no other text is.
pub fn a_sample_has_one_text()
    ensures { (sample : SampleValue) (text : List ℕ)
        → IsSampleText sample text ↔ (text ≡ sample_text sample) }
{}

/// A number has one decimal text, which is what the standard library writes for it: a natural number and an integer of 64 bits.
pub fn a_number_has_one_text()
    ensures natural { (n : ℕ) (text : List ℕ)
        → n < 2 ^ 64 → IsNaturalText n text ↔ (text ≡ decimal n) }
    ensures integer { (z : ℤ) (text : List ℕ)
        → FitsSigned w64 z → IsIntegerText z text ↔ (text ≡ signed_decimal z) }
{}
