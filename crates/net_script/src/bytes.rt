//! The bytes that only a `U` line may have.

ghost use Rattle.std.specs.Prelude.{◌≡◌, false, IfSome, IfNone};
ghost use Rattle.net_script.specs.Bytes.{AreClean, IsFirstBarred, is_barred};

/// The place of the first byte that no line but a `U` line may have: a quote, a carriage return, or a byte above 7E hexadecimal.
pub(crate) fn first_barred(line: &[u8]) -> Option<usize>
    ensures some { IfSome result (IsFirstBarred line.now) }
    ensures none { IfNone result (AreClean line.now) }
{
    if !has_barred(line) {
        return None;
    }
    for (place, byte) in line.iter().enumerate() {
        if is_barred(*byte) {
            return Some(place);
        }
    }
    None
}

/// Whether the line has such a byte. It looks at each, whatever it found before: nearly all lines have none, and so many bytes
/// are looked at in one step.
fn has_barred(line: &[u8]) -> bool
    ensures { result ≡ false → AreClean line.now }
{
    let mut found = false;
    for byte in line {
        found |= is_barred(*byte);
    }
    found
}

fn is_barred(byte: u8) -> bool
    ensures { result ≡ is_barred byte }
{
    byte == b'"' || byte == b'\r' || byte > 0x7e
}
