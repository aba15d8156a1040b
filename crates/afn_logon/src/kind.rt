//! The two kinds of application in a text.

/// Which text an application stands in.
#[derive(Clone, Copy)]
pub(crate) enum Kind {
    /// A contact offers it.
    Offered,
    /// An answer speaks of it.
    Answered,
}
