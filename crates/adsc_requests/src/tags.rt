//! The tags of messages and groups.

ghost use Rattle.std.specs.Prelude.{◌≡◌};
ghost use Rattle.adsc_requests.specs.Tables.{is_message_tag, allows};

// The tags of messages.
pub(crate) const CANCEL_ALL: u8 = 1;

pub(crate) const CANCEL: u8 = 2;

pub(crate) const CANCEL_EMERGENCY: u8 = 6;

pub(crate) const PERIODIC: u8 = 7;

pub(crate) const EVENT: u8 = 8;

pub(crate) const EMERGENCY: u8 = 9;

// The tags of groups. Six tags stand one behind the other for the moduli of the report groups 12 to
// 17.
pub(crate) const LATERAL: u8 = 10;

pub(crate) const INTERVAL: u8 = 11;

pub(crate) const FIRST_MODULUS: u8 = 12;

pub(crate) const LAST_MODULUS: u8 = 17;

pub(crate) const VERTICAL_RATE: u8 = 18;

pub(crate) const RANGE: u8 = 19;

pub(crate) const WAYPOINT: u8 = 20;

pub(crate) const INTENT: u8 = 21;

/// Whether a message begins with this octet.
#[tactic(auto, unfolding(crate::specs::Tables::is_message_tag))]
pub(crate) fn begins_message(tag: u8) -> bool
    ensures { result ≡ is_message_tag tag }
{
    matches!(
        tag,
        CANCEL_ALL | CANCEL | CANCEL_EMERGENCY | PERIODIC | EVENT | EMERGENCY
    )
}

/// Whether a message of the first tag may have a group of the second.
#[tactic(auto, unfolding(crate::specs::Tables::allows, crate::specs::Tables::is_modulus_tag))]
pub(crate) fn may_have(message: u8, group: u8) -> bool
    ensures { result ≡ allows message group }
{
    match message {
        PERIODIC | EMERGENCY => matches!(group, INTERVAL | FIRST_MODULUS..=LAST_MODULUS | INTENT),
        EVENT => matches!(group, LATERAL | VERTICAL_RATE | RANGE | WAYPOINT),
        _ => false,
    }
}
