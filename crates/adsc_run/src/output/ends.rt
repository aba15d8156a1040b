//! The lines of a bad line and of the limit.
ghost use Rattle.std.specs.Prelude.{◌≡◌, ◌≤◌, ◌++◌, codes, length};
ghost use Rattle.adsc_io.specs.Lines.{ended};
ghost use Rattle.output_fields.specs.Fields.{number_field};
ghost use Rattle.run_rules.specs.Output.{bad_line as bad_line_text, code_text};

use net_script::{BadLine, Code};
use output_fields::{Line, push, push_number};

/// The line of a bad line.
pub(super) fn bad_line(bad: BadLine) -> Line
    ensures { result.items ≡ bad_line_text bad }
{
    let mut line = Line::new();
    push(&mut line, b"BAD");
    push_number(&mut line, bad.line);
    push(&mut line, b",");
    push(&mut line, code_word(bad.code));
    push_number(&mut line, bad.value);
    push(&mut line, b"\n");
    line
}

/// The line of the line that is over the limit.
pub(super) fn limit_line(number: u32) -> Line
    ensures { result.items ≡ ended (codes "LIMIT" ++ number_field number) }
{
    let mut line = Line::new();
    push(&mut line, b"LIMIT");
    push_number(&mut line, number);
    push(&mut line, b"\n");
    line
}

/// The word for what is wrong with a bad line.
fn code_word(code: Code) -> &'static [u8]
    ensures word { result.now ≡ code_text code }
    ensures short { length result.now ≤ 7 }
{
    match code {
        Code::Head => b"HEAD",
        Code::Kind => b"KIND",
        Code::Byte => b"BYTE",
        Code::Count => b"COUNT",
        Code::Field => b"FIELD",
        Code::Twice => b"TWICE",
        Code::Address => b"ADDRESS",
        Code::Role => b"ROLE",
        Code::Number => b"NUMBER",
        Code::Logon => b"LOGON",
        Code::Waiting => b"WAITING",
        Code::Nothing => b"NOTHING",
        Code::Long => b"LONG",
        Code::Early => b"EARLY",
    }
}
