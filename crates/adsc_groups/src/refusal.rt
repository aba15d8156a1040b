//! Why a group could not be read.

ghost use Rattle.std.specs.Prelude.{◌≡◌};
ghost use Rattle.adsc_groups.specs.declared.refusal.GroupWhy.TheVariants as why;

use adsc_bits::Short;

/// What is wrong with a group.
#[derive(Clone, Copy, Debug, PartialEq, Eq)]
pub enum GroupWhy {
    /// A field isn't wholly there.
    Short,
    /// The tag is no group's.
    Tag,
}

/// What is wrong with a group, and where.
#[derive(Clone, Copy, Debug, PartialEq, Eq)]
pub struct GroupRefusal {
    /// The place of the first bit of the field that isn't wholly there, or the place where the
    /// group's data would begin.
    pub bit: u32,
    pub why: GroupWhy,
}

impl From<Short> for GroupRefusal {
    ghost from_gives = { λ short refusal. refusal ≡ record { bit = short.bit; why = why.Short } };

    fn from(short: Short) -> GroupRefusal {
        GroupRefusal {
            bit: short.bit,
            why: GroupWhy::Short,
        }
    }
}
