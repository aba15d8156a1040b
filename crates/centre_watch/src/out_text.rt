//! Text that is written out later.

ghost use Rattle.std.specs.Prelude.{◌≡◌, ◌≤◌, ◌+◌, ◌-◌, ◌++◌, [], length, OnOk, OnErr};

use adsc_io::NoMemory;
use std::alloc::Global;
use std::marker::Model;

/// How much room [`OutText::reserve`] makes.
const ROOM: usize = 4_096;

/// A text that grows, with room that is taken before it is needed, so that appending can't be refused. Contracts see its bytes, and
/// its `spare`, how many bytes can still be appended.
#[derive(Drop)]
pub struct OutText {
    bytes: Vec<u8>,
    spare: usize,
}

impl Model for OutText {
    ghost use Rattle.std.specs.Prelude.{◌+◌, ◌≤◌, vec_len, vec_capacity};
    ghost use Rattle.centre_watch.specs.Texts.{TextWithRoom};

    ghost Value = { TextWithRoom };

    ghost view = { λ text. record { bytes = text.bytes.items; spare = text.spare } };

    ghost invariant = { λ text. vec_len text.bytes + text.spare ≤ vec_capacity text.bytes };
}

impl OutText {
    /// An empty text without room. It takes no memory.
    pub fn new(alloc: Global) -> OutText
        ensures { result ≡ record { bytes = []; spare = 0 } }
    {
        OutText {
            bytes: Vec::new(alloc),
            spare: 0,
        }
    }

    /// Makes room for at least 4,096 bytes more. `NoMemory` is the only refusal, and changes nothing.
    pub fn reserve(&mut self) -> Result<(), NoMemory>
        ensures bytes { self.new.bytes ≡ self.old.bytes }
        ensures spare { OnOk result (4096 ≤ self.new.spare) }
        ensures refused { OnErr result (self.new ≡ self.old) }
    {
        if self.spare < ROOM {
            self.bytes.reserve(ROOM)?;
            self.spare = ROOM;
        }
        Ok(())
    }

    /// Appends bytes, for which there is room.
    pub fn push(&mut self, bytes: &[u8])
        requires { length bytes.now ≤ self.old.spare }
        ensures bytes { self.new.bytes ≡ self.old.bytes ++ bytes.now }
        ensures spare { self.new.spare ≡ self.old.spare - length bytes.now }
    {
        match self.bytes.extend_from_slice(bytes) {
            Ok(()) => self.spare -= bytes.len(),
            // There is room.
            Err(_) => unreachable!(),
        }
    }

    /// The text.
    pub fn bytes(&self) -> &[u8]
        ensures { result.now ≡ self.now.bytes }
    {
        self.bytes.as_slice()
    }
}
