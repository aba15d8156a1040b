//! One aircraft for several threads: callers take turns with it, and each of them knows what became
//! of its own entries.
//!
//! `Shared::start` takes a craft and makes one to six passes. A thread that holds a pass takes
//! entries (`Shared::take`) and reads downlinks (`Shared::collect`), each time once it has the turn.
//! What a pass has seen of the journal only grows, and threads tell each other of it by notes
//! (`note`, `meet`). `Shared::close` takes all passes back and gives the craft: its journal is the
//! one from the start, and then an interleaving of what the passes took, each list whole and in
//! its order.
//!
//! Nothing is said of waiting: not that the turn ever comes, nor in which order callers get it.
//!
//! The run of a script stands above. Begin with `specs/Passes.antt`, which says what each call
//! promises, and `specs/Interleavings.antt`; then read `shared` and `pass`. `turns` has the steps
//! on the table that the callers share, under the rule of `specs/Turns.antt`; `known` has what a
//! seat at the table knows, `plays` what each step tells, `opening` and `closing` how the
//! table begins and ends. `laws` has laws of the definitions.
#![tactic(auto)]

mod closing;
mod known;
mod laws;
mod opening;
mod pass;
mod plays;
mod shared;
#[cfg(test)]
mod tests;
mod turns;

pub use laws::{an_interleaving_is_a_numbered_log, an_interleaving_of_one_list_is_the_list};
pub use pass::{Note, Pass};
pub use shared::{Shared, Unclosed, Unstarted, Untaken};
