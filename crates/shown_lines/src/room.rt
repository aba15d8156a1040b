//! Room for the text of a line, taken once.
ghost use Rattle.std.specs.Prelude.{◌≡◌, ◌+◌, ◌*◌, ◌≤◌, [], ◌∷◌, ◌++◌, length, IfOk};
ghost use Rattle.acars_envelope.specs.Texts.{six_digits};
ghost use Rattle.adsc_io.specs.Lines.{ended};
ghost use Rattle.output_fields.specs.Faults.{envelope_fault_fields, request_fault_fields};
ghost use Rattle.output_fields.specs.Fields.{comma, number_field};
ghost use Rattle.shown_lines.specs.Fields.{signed_field, value_fields};

use acars_envelope::EnvelopeRefusal;
use adsc_io::NoMemory;
use adsc_requests::Refusal;
use itoa::Buffer;
use std::alloc::Global;
use std::marker::Model;

/// The most bytes that a line for a report group has: a word of five letters, its tag of up to 11 bytes with its comma,
/// seven values of up to 12 bytes each, and a newline.
pub(crate) const GROUP_ROOM: usize = 101;

/// The most bytes that the lines of a downlink item have: a report's own line, and its eight groups.
pub(crate) const ITEM_ROOM: usize = 102 + 8 * GROUP_ROOM;

/// The most bytes that the lines of an uplink message have: a word and a number, an interval, six moduli and an intent.
pub(crate) const MESSAGE_ROOM: usize = 238;

/// The most bytes that the line has which says where a text comes from and where it goes.
pub(crate) const HEAD_ROOM: usize = 38;

/// The most bytes that show one line: where it comes from and goes, and eight downlink items.
pub(crate) const LINE_ROOM: usize = HEAD_ROOM + 8 * ITEM_ROOM;

/// Text in room that is taken once: there is room for what shows any line, so appending takes no memory.
#[derive(Drop)]
pub(crate) struct Room {
    bytes: Vec<u8>,
}

impl Model for Room {
    ghost use Rattle.std.specs.Prelude.{ℕ, ◌≤◌, List, vec_capacity};
    ghost use Rattle.shown_lines.specs.declared.room.TheConstants.{LINE_ROOM};

    ghost Value = { List ℕ };

    ghost view = { λ room. room.bytes.items };

    ghost invariant = { λ room. LINE_ROOM ≤ vec_capacity room.bytes };
}

impl Room {
    /// No text.
    pub(crate) fn new(alloc: Global) -> Result<Room, NoMemory>
        ensures { IfOk result (λ room. room ≡ []) }
    {
        Ok(Room {
            bytes: Vec::with_capacity(alloc, LINE_ROOM)?,
        })
    }

    /// The text.
    pub(crate) fn bytes(&self) -> &[u8]
        ensures { result.now ≡ self.now }
    {
        &self.bytes
    }

    /// Forgets the text.
    pub(crate) fn clear(&mut self)
        ensures { self.new ≡ [] }
    {
        self.bytes.clear();
    }

    /// Appends bytes.
    pub(crate) fn append(&mut self, piece: &[u8])
        requires { length self.old + length piece.now ≤ LINE_ROOM }
        ensures text { self.new ≡ self.old ++ piece.now }
        ensures size { length self.new ≡ length self.old + length piece.now }
    {
        match self.bytes.extend_from_slice(piece) {
            Ok(()) => {}
            Err(_) => unreachable!(),
        }
    }

    /// Appends a comma and a number.
    pub(crate) fn append_number(&mut self, number: u32)
        requires { length self.old + 11 ≤ LINE_ROOM }
        ensures text { self.new ≡ self.old ++ number_field number }
        ensures size { length self.new ≤ length self.old + 11 }
    {
        match output_fields::append_number(&mut self.bytes, number) {
            Ok(()) => {}
            Err(_) => unreachable!(),
        }
    }

    /// Appends a comma and a signed number.
    pub(crate) fn append_signed(&mut self, number: i32)
        requires { length self.old + 12 ≤ LINE_ROOM }
        ensures text { self.new ≡ self.old ++ signed_field number }
        ensures size { length self.new ≤ length self.old + 12 }
    {
        let mut digits = Buffer::new();
        self.append(b",");
        self.append(digits.format(number).as_bytes());
    }

    /// Appends numbers, a comma before each.
    pub(crate) fn append_values(&mut self, values: &[i32])
        requires { length self.old + 12 * length values.now ≤ LINE_ROOM }
        ensures text { self.new ≡ self.old ++ value_fields values.now }
        ensures size { length self.new ≤ length self.old + 12 * length values.now }
    {
        for value in values {
            self.append_signed(*value);
        }
    }

    /// Appends a line that is a word and a number.
    pub(crate) fn append_numbered(&mut self, word: &[u8], number: u32)
        requires { length self.old + length word.now + 12 ≤ LINE_ROOM }
        ensures text { self.new ≡ self.old ++ ended (word.now ++ number_field number) }
        ensures size { length self.new ≤ length self.old + length word.now + 12 }
    {
        self.append(word);
        self.append_number(number);
        self.append(b"\n");
    }

    /// Appends a comma and an aircraft's address of 24 bits, in hexadecimal.
    pub(crate) fn append_airframe(&mut self, address: u32)
        requires { length self.old + 9 ≤ LINE_ROOM }
        ensures text { self.new ≡ self.old ++ comma ∷ six_digits address }
        ensures size { length self.new ≤ length self.old + 9 }
    {
        let octets = address.to_be_bytes();
        self.append(b",");
        match output_fields::append_octets(&mut self.bytes, &octets[1..]) {
            Ok(()) => {}
            Err(_) => unreachable!(),
        }
    }

    /// Appends what is wrong with an envelope.
    pub(crate) fn append_envelope_fault(&mut self, fault: &EnvelopeRefusal)
        requires { length self.old + 30 ≤ LINE_ROOM }
        ensures text { self.new ≡ self.old ++ envelope_fault_fields fault.now }
        ensures size { length self.new ≤ length self.old + 30 }
    {
        match output_fields::append_envelope_fault(&mut self.bytes, fault) {
            Ok(()) => {}
            Err(_) => unreachable!(),
        }
    }

    /// Appends what is wrong with an uplink's payload.
    pub(crate) fn append_request_fault(&mut self, fault: &Refusal)
        requires { length self.old + 28 ≤ LINE_ROOM }
        ensures text { self.new ≡ self.old ++ request_fault_fields fault.now }
        ensures size { length self.new ≤ length self.old + 28 }
    {
        match output_fields::append_request_fault(&mut self.bytes, fault) {
            Ok(()) => {}
            Err(_) => unreachable!(),
        }
    }
}
