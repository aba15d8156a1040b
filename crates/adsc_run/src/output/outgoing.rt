//! Text on its way to a sink.
ghost use Rattle.std.specs.Prelude.{◌≡◌, [], false};
ghost use Rattle.adsc_run.specs.Outgoing.{Finishes, Puts, on_way};

use adsc_io::{Sink, WriteFault, write_all};
use arrayvec::ArrayVec;

/// Text on its way to a sink: bytes wait until they fill a block, and are then written at once.
///
/// A write that fails is remembered, and nothing is written after it.
#[derive(Drop)]
pub(crate) struct Outgoing {
    waiting: ArrayVec<u8, 4096>,
    failed: bool,
}

impl Outgoing {
    /// Nothing on its way.
    pub(crate) fn new() -> Outgoing
        ensures empty { result.waiting.items ≡ [] }
        ensures fresh { result.failed ≡ false }
    {
        Outgoing {
            waiting: ArrayVec::new(),
            failed: false,
        }
    }

    /// Puts bytes behind those that wait.
    pub(crate) fn put<K: Sink>(&mut self, sink: &mut K, bytes: &[u8])
        ensures { Puts (on_way (K.written sink.old) (K.faults sink.old) self.old) (on_way (K.written sink.new) (K.faults sink.new) self.new) bytes.now }
    {
        if self.failed {
            return;
        }
        match self.waiting.try_extend_from_slice(bytes) {
            Ok(()) => (),
            Err(_) => {
                self.write_block(sink);
                self.put_first(sink, bytes);
            }
        }
    }

    /// Writes all bytes that wait.
    fn write_block<K: Sink>(&mut self, sink: &mut K)
        requires { self.old.failed ≡ false }
        ensures puts { Puts (on_way (K.written sink.old) (K.faults sink.old) self.old) (on_way (K.written sink.new) (K.faults sink.new) self.new) [] }
        ensures empty { self.new.failed ≡ false → self.new.waiting.items ≡ [] }
    {
        match write_all(sink, self.waiting.as_slice()) {
            Ok(()) => self.waiting.clear(),
            Err(WriteFault) => self.failed = true,
        }
    }

    /// Puts bytes where none wait.
    fn put_first<K: Sink>(&mut self, sink: &mut K, bytes: &[u8])
        requires { self.old.failed ≡ false → self.old.waiting.items ≡ [] }
        ensures { Puts (on_way (K.written sink.old) (K.faults sink.old) self.old) (on_way (K.written sink.new) (K.faults sink.new) self.new) bytes.now }
    {
        if self.failed {
            return;
        }
        if self.waiting.try_extend_from_slice(bytes).is_err() {
            self.write_at_once(sink, bytes);
        }
    }

    /// Writes bytes where none wait.
    fn write_at_once<K: Sink>(&mut self, sink: &mut K, bytes: &[u8])
        requires fresh { self.old.failed ≡ false }
        requires empty { self.old.waiting.items ≡ [] }
        ensures { Puts (on_way (K.written sink.old) (K.faults sink.old) self.old) (on_way (K.written sink.new) (K.faults sink.new) self.new) bytes.now }
    {
        match write_all(sink, bytes) {
            Ok(()) => (),
            Err(WriteFault) => self.failed = true,
        }
    }

    /// Writes what still waits, unless a write failed before.
    pub(crate) fn finish<K: Sink>(self, sink: &mut K) -> Result<(), WriteFault>
        ensures { Finishes (on_way (K.written sink.old) (K.faults sink.old) self) (K.written sink.new) (K.faults sink.new) result }
    {
        if self.failed {
            return Err(WriteFault);
        }
        write_all(sink, self.waiting.as_slice())
    }
}
