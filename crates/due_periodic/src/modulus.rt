//! The modulus of a group in the reports of a series.

ghost use Rattle.std.specs.Prelude.{◌≡◌};
ghost use Rattle.contract_rules.specs.Reports.{is_modulus_due};

/// Whether a group of this modulus stands in report number `r` of its series, counted from 0: where the modulus is at
/// least 1 and divides `r`. This project's profile.
pub fn modulus_due(r: u64, modulus: u8) -> bool
    ensures { result ≡ is_modulus_due r (Some modulus) }
{
    modulus >= 1 && r % u64::from(modulus) == 0
}
