//! What an aircraft's contracts are told.

use adsc_requests::{Message, Refusal};
use flight_samples::Sample;

/// One act: something that may change a contract or make an item due.
///
/// A payload that can be read gives one act for each of its messages, a payload that can't be read one malformed act. The
/// flight's acts concern every link: a new sample, a tick of the clock, and the crew's switch of the emergency mode.
#[derive(Clone, Copy, Debug)]
pub enum Act {
    /// A message that the ground system of this link sent.
    Said { link: u8, message: Message },
    /// A payload of this link that could not be read, and its first fault.
    Malformed { link: u8, refusal: Refusal },
    /// A new flight sample, with the latest one before it: the waypoint event compares the two.
    Moved { before: Sample, now: Sample },
    /// A tick of the clock, in seconds. Time is the greatest tick so far, so one that goes back moves nothing.
    Ticked { t: u32 },
    /// The crew switched the emergency mode on or off.
    Crew { on: bool },
}
