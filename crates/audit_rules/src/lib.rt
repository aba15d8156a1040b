//! The audit of a recorded log, as definitions: what its lines say, which downlinks are due of each entry, which were recorded, and how
//! the audit ends.
//!
//! A log has the lines of a script by which an aircraft is told something, and the texts that came down from it, each behind the entry
//! that made it due. An entry conforms on a link where the texts recorded there are those that the rules make due, but for padding. The
//! crate has no code. Logs are this project's profile.
//!
//! Below stand the definitions of runs (`run_rules`) and of the aircraft's downlinks (`aircraft_core`), which say what a line does and
//! what is due; above stand `adsc_audit` and the bench. Begin with `specs/Logs.antt` (what a log tells) and `specs/LogReadings.antt` (how
//! a line is read); then `specs/Conforming.antt` and `specs/SameTexts.antt`, `specs/AuditEnds.antt`, `specs/AuditText.antt`, and
//! `src/laws.rt`.
#![tactic(auto)]

mod laws;

pub use laws::{a_log_line_has_one_reading, an_input_has_one_audit_end};
