//! The run of a script, as definitions: what each line does, in which orders workers may take the entries of the journal, what is
//! written in the end, and what a centre's table then tells of the aircraft's contracts.
//!
//! A script is run by the bench: its lines are judged one by one, texts reach the aircraft, centres ask and cancel, and messages are
//! brought any number of times, in any order, or never. What happens is one log; the journal, each centre's history and its messages
//! are functions of it. The order in which several workers take the entries is a parameter: only a delivery to a centre looks at the
//! journal, so only there the order is seen. The crate has no code but the types that the definitions speak of. Scripts, orders and
//! outputs are this project's profile.
//!
//! Below stand the definitions of script lines, texts, the aircraft and the centre; above stand `adsc_run`, `generated_scripts` and the bench, whose contracts cite
//! these. Begin with `specs/Happenings.antt` (what happens), `specs/Lines.antt` and `specs/Texts.antt` (what a line does),
//! `specs/Runs.antt` (the run) and `specs/Orders.antt` (allowed orders); then `specs/Output.antt`, `specs/Claims.antt` (confirmed,
//! accepted, reused too early), `specs/FaultTable.antt` (the faults of a line by what stands before it, as a table) and `src/laws.rt`.
#![tactic(auto)]

mod end;
mod laws;
mod reading;
mod refused;

pub use end::End;
pub use laws::{
    a_journal_line_shows_its_order, a_line_has_one_reading, a_rising_order_is_allowed,
    a_script_has_a_run_under_each_order, a_script_has_one_run, a_sent_message_is_taken,
    allowed_orders_keep_line_order, each_input_is_a_script, few_asks_reuse_nothing, orders_agree,
    the_first_fault_stops, what_is_shown_was_accepted, worked_bad_lines, worked_burst,
    worked_early_reuse, worked_heads, worked_lines, worked_orders, worked_scripts,
};
pub use reading::Reading;
pub use refused::{RefusedLine, RefusedWhy};
