//! The groups of a request as they are read.

ghost use Rattle.std.specs.Prelude.{◌≡◌, ◌<◌, IsTrue, FitsSigned};
ghost use Rattle.std.specs.Option.{ForSome};
ghost use Rattle.std.specs.Int.{w8};
ghost use Rattle.adsc_requests.specs.Watching.{is_not_zero};

mod additions;

use crate::message::{Intent, Moduli, Range};

/// The groups of a request as far as they were read, of a periodic request and of an event request
/// alike.
#[derive(Clone, Copy)]
pub(crate) struct Gathered {
    pub lateral: Option<u8>,
    pub interval: Option<u8>,
    pub moduli: Moduli,
    pub vrate: Option<i8>,
    pub range: Option<Range>,
    pub waypoint: bool,
    pub intent: Option<Intent>,
    ghost lateral_above_0: { ForSome lateral (λ t. 0 < t) },
    ghost vrate_fits: { ForSome vrate (λ t. FitsSigned w8 t) },
    ghost vrate_not_0: { ForSome vrate (λ t. IsTrue (is_not_zero t)) },
}
