//! The lines of the aircraft's links.
ghost use Rattle.std.specs.Prelude.{◌≡◌, ◌+◌, ◌≤◌, ◌++◌, codes};
ghost use Rattle.adsc_io.specs.Lines.{ended, script_lines};
ghost use Rattle.adsc_run.specs.Outcomes.{journal_in, setting_in};
ghost use Rattle.adsc_run.specs.Outgoing.{Puts, PutsSuch, on_way};
ghost use Rattle.arrayvec.specs.ArrayVec.{array_vec_len};
ghost use Rattle.run_rules.specs.Output.{AreLinesOfLinks, AreLinkLines, downlink_lines, logon_fields, logon_line as logon_line_text};

use super::outgoing::Outgoing;
use acars_envelope::Address;
use adsc_io::{Sink, next_line};
use afn_logon::Logon;
use aircraft_core::Craft;
use output_fields::{Line, push, push_number};

/// Puts the lines of all links of the aircraft, if there is one.
pub(super) fn put_links_of<K: Sink>(out: &mut Outgoing, sink: &mut K, craft: &Option<Craft>)
    ensures { PutsSuch (AreLinesOfLinks (setting_in craft.now) (journal_in craft.now))
        (on_way (K.written sink.old) (K.faults sink.old) out.old) (on_way (K.written sink.new) (K.faults sink.new) out.new) }
{
    match craft {
        Some(craft) => put_links(out, sink, craft),
        None => (),
    }
}

/// Puts the lines of all links of an aircraft.
fn put_links<K: Sink>(out: &mut Outgoing, sink: &mut K, craft: &Craft)
    ensures { PutsSuch (AreLinkLines craft.now.setting craft.now.journal 0 craft.now.setting.addresses)
        (on_way (K.written sink.old) (K.faults sink.old) out.old) (on_way (K.written sink.new) (K.faults sink.new) out.new) }
{
    for link in 0..craft.links() {
        let line = logon_line(craft.address(link), craft.logon(link));
        out.put(sink, line.as_slice());
        put_downlinks(out, sink, craft.outbox(link));
    }
}

/// The line of a link's logon state.
fn logon_line(address: Address, logon: Logon) -> Line
    ensures { result.items ≡ logon_line_text address logon }
{
    let mut line = Line::new();
    push(&mut line, b"L,");
    push(&mut line, address.seven().as_slice());
    push_logon(&mut line, logon);
    push(&mut line, b"\n");
    line
}

/// Appends a logon state, a comma before it.
fn push_logon(line: &mut Line, logon: Logon)
    requires { array_vec_len line.old + 20 ≤ 256 }
    ensures text { line.new.items ≡ line.old.items ++ logon_fields logon }
    ensures len { array_vec_len line.new ≤ array_vec_len line.old + 20 }
{
    match logon {
        Logon::Nothing => push(line, b",none"),
        Logon::Sent => push(line, b",sent"),
        Logon::Accepted => push(line, b",accepted"),
        Logon::Rejected { code } => {
            push(line, b",rejected");
            push_number(line, u32::from(code));
        }
    }
}

/// Puts a line for each downlink of an outbox, in which each text ends with a newline.
fn put_downlinks<K: Sink>(out: &mut Outgoing, sink: &mut K, outbox: &[u8])
    ensures { Puts (on_way (K.written sink.old) (K.faults sink.old) out.old) (on_way (K.written sink.new) (K.faults sink.new) out.new)
        (downlink_lines (script_lines outbox.now)) }
{
    let mut rest = outbox;
    while let Some((text, behind)) = next_line(rest) {
        put_downlink(out, sink, text);
        rest = behind;
    }
}

/// Puts the line of a downlink.
fn put_downlink<K: Sink>(out: &mut Outgoing, sink: &mut K, text: &[u8])
    ensures { Puts (on_way (K.written sink.old) (K.faults sink.old) out.old) (on_way (K.written sink.new) (K.faults sink.new) out.new)
        (codes "D," ++ ended text.now) }
{
    out.put(sink, b"D,");
    out.put(sink, text);
    out.put(sink, b"\n");
}
