//! What a call answers.

/// The call did what it is for.
pub(crate) const DONE: u8 = 0;
/// What was given is refused, and a struct says where and why.
pub(crate) const REFUSED: u8 = 1;
/// A struct that was given spells no value.
pub(crate) const NO_STRUCT: u8 = 2;
