//! The event of one limit.

ghost use Rattle.std.specs.Prelude.{◌≡◌, false};

/// The event of one limit of an event contract: whether it arms again when a sample is back within the limit, and
/// whether it is spent, so that a sample which exceeds the limit does not fire it.
#[derive(Clone, Copy, Debug, PartialEq, Eq)]
pub struct Trigger {
    arms_again: bool,
    spent: bool,
}

impl Trigger {
    ghost use Rattle.due_event.specs.Triggers.{is_fired, trigger_moved};

    /// The event of a limit that no sample has exceeded yet.
    pub(crate) fn new(arms_again: bool) -> Trigger
        ensures { result ≡ record { arms_again = arms_again; spent = false } }
    {
        Trigger {
            arms_again,
            spent: false,
        }
    }

    /// Whether a sample fires the event, by whether it exceeds the limit.
    pub(crate) fn see(&mut self, exceeded: bool) -> bool
        ensures fires { result ≡ is_fired exceeded self.old }
        ensures next { self.new ≡ trigger_moved exceeded self.old }
    {
        let fires = exceeded && !self.spent;
        self.spent = exceeded || (self.spent && !self.arms_again);
        fires
    }
}
