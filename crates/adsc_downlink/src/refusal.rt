//! Why a payload is no downlink.

ghost use Rattle.std.specs.Prelude.{◌≡◌};
ghost use Rattle.adsc_downlink.specs.Refusals.{short_at, as_refusal};

use adsc_bits::Short;
use adsc_groups::{GroupRefusal, GroupWhy};

/// What is wrong with a payload.
#[derive(Clone, Copy, Debug, PartialEq, Eq)]
pub enum DownWhy {
    /// A field isn't wholly there.
    Short,
    /// An octet in the place of a tag is no item's, nor, within a report, a group's.
    Tag,
    /// A reason is 0 or above 13, or a fixed octet of a noncompliance is another.
    Value,
    /// A ninth item, or a ninth group of a report.
    Many,
}

/// What is wrong with a payload first, from the left, and where.
#[derive(Clone, Copy, Debug, PartialEq, Eq)]
pub struct DownRefusal {
    /// The place of the first bit of the field that is wrong, counted from 0 at the first bit of
    /// the payload.
    pub bit: u32,
    pub why: DownWhy,
}

impl From<Short> for DownRefusal {
    ghost from_gives = { λ short refusal. refusal ≡ short_at short.bit };

    fn from(short: Short) -> DownRefusal {
        DownRefusal {
            bit: short.bit,
            why: DownWhy::Short,
        }
    }
}

impl From<GroupRefusal> for DownRefusal {
    ghost from_gives = { λ group refusal. refusal ≡ as_refusal group };

    fn from(group: GroupRefusal) -> DownRefusal {
        let why = match group.why {
            GroupWhy::Short => DownWhy::Short,
            GroupWhy::Tag => DownWhy::Tag,
        };
        DownRefusal {
            bit: group.bit,
            why,
        }
    }
}
