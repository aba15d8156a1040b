//! The limits of the script language, each said once. This project's profile.

/// The most addresses that a `G` line lists.
pub const MAX_ADDRESSES: usize = 64;

/// How many fields an `A` line has that says no profile, its letter counted. One that says a profile has one field more.
pub const AIRCRAFT_FIELDS: usize = 4;

/// How many fields an `S` line has: its letter and 26 columns.
pub const SAMPLE_FIELDS: usize = 27;

/// The greatest time of a `T` line.
pub const MAX_TIME: u32 = 999_999_999;

/// The greatest place in a list of messages that a `B` or an `R` line names; the least is 1.
pub const MAX_PLACE: u32 = 999_999_999;
