//! The numbers, switches, cancels and profiles in a line.

ghost use Rattle.std.specs.Prelude.{◌≡◌, ℕ, IfSome, IfNone, codes, if◌then◌else◌};
ghost use Rattle.net_script.specs.Forms.{HasForm, IsCancelText, IsNumberOf, IsProfileText, a_cancel, a_place, a_profile, a_switch, a_time};

use crate::limits::{MAX_PLACE, MAX_TIME};
use crate::line::Cancel;
use adsc_requests::Kind;
use due_event::Profile;
use flight_samples::decimal::read_natural;

/// The natural number from `low` to `high` that the field writes.
fn natural_of(field: &[u8], low: u32, high: u32) -> Option<u32>
    ensures some { IfSome result (λ number. IsNumberOf low high number field.now) }
    ensures none { IfNone result ((number : ℕ) → ¬ IsNumberOf low high number field.now) }
{
    match read_natural(field, low, high) {
        Ok(number) => Some(number),
        Err(_) => None,
    }
}

/// The time that the field writes.
pub(crate) fn time_of(field: &[u8]) -> Option<u32>
    ensures some { IfSome result (λ time. IsNumberOf 0 MAX_TIME time field.now) }
    ensures none { IfNone result (¬ HasForm a_time field.now) }
{
    natural_of(field, 0, MAX_TIME)
}

/// The place in a list of messages that the field writes.
pub(crate) fn place_of(field: &[u8]) -> Option<u32>
    ensures some { IfSome result (λ place. IsNumberOf 1 MAX_PLACE place field.now) }
    ensures none { IfNone result (¬ HasForm a_place field.now) }
{
    natural_of(field, 1, MAX_PLACE)
}

/// Whether the field switches on or off.
pub(crate) fn switch_of(field: &[u8]) -> Option<bool>
    ensures some { IfSome result (λ on. field.now ≡ (if on then codes "1" else codes "0")) }
    ensures none { IfNone result (¬ HasForm a_switch field.now) }
{
    match field {
        [b'1'] => Some(true),
        [b'0'] => Some(false),
        _ => None,
    }
}

/// The profile that the field names.
pub(crate) fn profile_of(field: &[u8]) -> Option<Profile>
    ensures some { IfSome result (λ profile. IsProfileText profile field.now) }
    ensures none { IfNone result (¬ HasForm a_profile field.now) }
{
    match field {
        [b'1'] => Some(Profile::One),
        [b'2'] => Some(Profile::Two),
        _ => None,
    }
}

/// What the field cancels.
pub(crate) fn cancel_of(field: &[u8]) -> Option<Cancel>
    ensures some { IfSome result (λ cancel. IsCancelText cancel field.now) }
    ensures none { IfNone result (¬ HasForm a_cancel field.now) }
{
    match field {
        [b'P'] => Some(Cancel::Of(Kind::Periodic)),
        [b'V'] => Some(Cancel::Of(Kind::Event)),
        [b'M'] => Some(Cancel::Of(Kind::Emergency)),
        [b'X'] => Some(Cancel::EmergencyMode),
        [b'A'] => Some(Cancel::All),
        _ => None,
    }
}
