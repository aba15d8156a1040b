//! Writing all of some bytes.
ghost use Rattle.std.specs.Prelude.{◌≡◌, [], OnOk, OnErr};
ghost use Rattle.std.specs.Io.KnownBytes.{Appends};
ghost use Rattle.adsc_io.specs.Causes.{HasCause};
ghost use Rattle.adsc_io.specs.Writes.{AppendsPrefix};

use crate::failures::{Failed, WriteFault};
use crate::traits::Sink;

/// Writes all of these bytes, piece by piece.
///
/// `WriteFault` comes only where the sink's count of faults rose in this call, and then a beginning of the bytes was
/// written that isn't all of them. An empty list writes nothing. This project's profile.
#[tactic(auto, using(crate::proofs::Joined::joined))]
pub fn write_all<K: Sink>(sink: &mut K, bytes: &[u8]) -> Result<(), WriteFault>
    ensures written { OnOk result (Appends (K.written sink.old) (K.written sink.new) bytes.now) }
    ensures prefix { OnErr result (AppendsPrefix (K.written sink.old) (K.written sink.new) bytes.now) }
    ensures cause { HasCause (K.faults sink.old) (K.faults sink.new) result }
    ensures nothing { bytes.now ≡ [] → sink.new ≡ sink.old }
{
    let mut at = 0;
    while at < bytes.len() {
        match sink.write(&bytes[at..]) {
            Ok(count) => at += count,
            Err(Failed) => return Err(WriteFault),
        }
    }
    Ok(())
}
