//! The journal line.
ghost use Rattle.std.specs.Prelude.{◌≡◌, ◌++◌, flat_map};
ghost use Rattle.adsc_run.specs.Outcomes.{journal_in};
ghost use Rattle.adsc_run.specs.Outgoing.{Puts, on_way};
ghost use Rattle.aircraft_core.specs.Entries.{line_of as line_of_entry};
ghost use Rattle.output_fields.specs.Fields.{number_field};
ghost use Rattle.run_rules.specs.Orders.{line_order};
ghost use Rattle.run_rules.specs.Output.{journal_line};

use super::outgoing::Outgoing;
use adsc_io::Sink;
use aircraft_core::{Craft, Entry};
use output_fields::{Line, push_number};

/// Puts the journal line of the aircraft, if there is one.
pub(super) fn put_journal<K: Sink>(out: &mut Outgoing, sink: &mut K, craft: &Option<Craft>)
    ensures { Puts (on_way (K.written sink.old) (K.faults sink.old) out.old) (on_way (K.written sink.new) (K.faults sink.new) out.new)
        (journal_line (line_order (journal_in craft.now))) }
{
    out.put(sink, b"J");
    put_entries_of(out, sink, craft);
    out.put(sink, b"\n");
}

/// Puts the line numbers of the journal of the aircraft, if there is one.
fn put_entries_of<K: Sink>(out: &mut Outgoing, sink: &mut K, craft: &Option<Craft>)
    ensures { Puts (on_way (K.written sink.old) (K.faults sink.old) out.old) (on_way (K.written sink.new) (K.faults sink.new) out.new)
        (flat_map number_field (line_order (journal_in craft.now))) }
{
    match craft {
        Some(craft) => put_entries(out, sink, craft.journal()),
        None => (),
    }
}

/// Puts the line numbers of entries, a comma before each.
fn put_entries<K: Sink>(out: &mut Outgoing, sink: &mut K, entries: &[Entry])
    ensures { Puts (on_way (K.written sink.old) (K.faults sink.old) out.old) (on_way (K.written sink.new) (K.faults sink.new) out.new)
        (flat_map (λ entry. number_field (line_of_entry entry)) entries.now) }
{
    for entry in entries {
        out.put(sink, field_of(line_of(entry)).as_slice());
    }
}

/// A comma and a line number.
fn field_of(line: u32) -> Line
    ensures { result.items ≡ number_field line }
{
    let mut field = Line::new();
    push_number(&mut field, line);
    field
}

/// The number of the line that brought the entry.
fn line_of(entry: &Entry) -> u32
    ensures { result ≡ line_of_entry entry.now }
{
    match entry {
        Entry::Uplink { line, .. }
        | Entry::Answer { line, .. }
        | Entry::Logon { line, .. }
        | Entry::Sample { line, .. }
        | Entry::Tick { line, .. }
        | Entry::Crew { line, .. } => *line,
    }
}
