//! Why a centre refuses to send.

/// Why a request isn't sent.
#[derive(Clone, Copy, Debug, PartialEq, Eq)]
pub enum AskRefused {
    /// No contact of the aircraft was heard.
    NotLoggedOn,
    /// A request of the same kind is pending, under this number.
    Waiting {
        /// The number of the pending request.
        n: u8,
    },
}

/// A cancel isn't sent, since there is nothing to cancel: the row of the kind is neither pending
/// nor confirmed nor partial.
#[derive(Clone, Copy, Debug, PartialEq, Eq)]
pub struct NothingShown;
