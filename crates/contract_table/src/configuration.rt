//! How an aircraft is set up.

use due_event::Profile;

/// What an aircraft is set up with and keeps for good.
#[derive(Clone, Copy, Debug)]
pub(crate) struct Configuration {
    /// How often events are reported.
    pub profile: Profile,
    /// The link for which one of the five connections is kept.
    pub reserved: Option<u8>,
}
