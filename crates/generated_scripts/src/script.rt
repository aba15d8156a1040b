//! The script of a number.

ghost use Rattle.std.specs.Prelude.{◌≡◌, ◌++◌, ◌≤◌, ◌*◌, ◌+◌, ◌^◌, ◌<◌, IfOk, OnOk, flat_map, map};
ghost use Rattle.adsc_io.specs.Lines.{ended_lines};
ghost use Rattle.generated_scripts.specs.Generator.{lines_drawn, made_script};
ghost use Rattle.generated_scripts.specs.Making.{making};
ghost use Rattle.generated_scripts.specs.Texts.{head_lines, line_text};

use crate::generator::Generator;
use crate::writing::append_line;
use adsc_io::NoMemory;
use std::alloc::{AllocError, Global};

/// The three lines of the head.
const HEAD: &[u8] = b"A,N12345,ANZ1,C81234
G,GRND001,GRND002,GRND003,GRND004,GRND005
S,0,0,0,0,0,0,0,0,0,0,0,0,0,0,0,0,0,0,0,0,0,0,0,0,0,0
";

/// The script of this number that has so many lines, 3 to 200,000: the same at each call. The three lines of the head say who the aircraft
/// is, the addresses of its five links, and a first sample; each line behind them is drawn. A newline stands behind each line. Memory is
/// the only thing that can be wanting.
pub fn generate_script(alloc: Global, number: u32, lines: u32) -> Result<Vec<u8>, NoMemory>
    requires { (3 ≤ lines) × (lines ≤ 200000) }
    ensures { IfOk result (λ script. script.items ≡ made_script number lines) }
{
    let mut script = Vec::new(alloc);
    script.extend_from_slice(HEAD)?;
    let mut generator = Generator::new(number);
    append_lines(&mut script, &mut generator, lines - 3)?;
    Ok(script)
}

/// Appends so many lines, each with a newline behind it.
fn append_lines(
    script: &mut Vec<u8>,
    generator: &mut Generator,
    count: u32,
) -> Result<(), AllocError>
    requires few { count ≤ 200000 }
    requires begun { generator.old.clock ≡ 0 }
    ensures { OnOk result (script.new.items ≡ script.old.items
        ++ ended_lines (map line_text (lines_drawn count (making generator.old)))) }
{
    for _ in 0..count {
        let line = generator.next_line();
        append_line(script, &line)?;
    }
    Ok(())
}
