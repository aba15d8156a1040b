//! Bursts: how the entries of their lines come into the journal.
ghost use Rattle.std.specs.Prelude.{◌≡◌, ◌≤◌, All, IfOk, Some};
ghost use Rattle.aircraft_core.specs.Entries.{IsTakenBy};
ghost use Rattle.run_rules.specs.Orders.{is_burst_line};
ghost use Rattle.adsc_run.specs.Courses.{HasEntered};

use crate::course::Course;
use crate::gate::Gate;
use crate::workers::enter_all;
use adsc_io::NoMemory;
use net_script::ScriptLine;
use run_rules::Reading;
use std::alloc::Global;
use std::sync::Wait;
use std::thread::Threads;

/// The most entries that wait. A longer burst is entered in parts: an order that workers take part by part is one that they may take.
pub(crate) const MOST_WAITING: usize = 4_096;

/// Whether a line that is read so may stand in a burst: it is a `U` or a `B` line.
pub(crate) fn is_burst(reading: &Reading) -> bool
    ensures { result ≡ is_burst_line (Some reading.now) }
{
    matches!(
        reading,
        Reading::Brings(_) | Reading::Says(ScriptLine::B(..))
    )
}

impl Course {
    /// Enters the entries of the burst into the journal, each worker those of its links in the order of their lines.
    pub(crate) fn enter_burst<R: Threads + Wait + Sync, G: Gate>(
        self,
        rt: &R,
        alloc: Global,
        workers: u8,
        gate: &G,
    ) -> Result<Course, NoMemory>
        requires some { 1 ≤ workers }
        requires most { workers ≤ 5 }
        requires taken { All (IsTakenBy self.craft.setting) self.burst.items }
        ensures { IfOk result (HasEntered workers self) }
    {
        if self.burst.is_empty() {
            return Ok(self);
        }
        let Course {
            craft,
            stations,
            refused,
            burst,
            downlink_ends,
        } = self;
        let craft = enter_all(rt, alloc, workers, craft, burst, gate)?;
        Ok(Course {
            craft,
            stations,
            refused,
            burst: Vec::new(alloc),
            downlink_ends,
        })
    }
}
