//! How a run ends.
ghost use Rattle.std.specs.Prelude.{◌≡◌};
ghost use Rattle.run_rules.specs.declared.end.End.{End as EndValue};
ghost use Rattle.run_rules.specs.declared.end.End.TheVariants as ends;

use net_script::{BadLine, Code};
use run_rules::End;

/// The end of a run at a bad line.
pub(crate) fn bad_line(line: u32, code: Code, value: u32) -> End
    ensures { result ≡ ends.Bad (record { line = line; code = code; value = value }) }
{
    End::Bad(BadLine { line, code, value })
}
