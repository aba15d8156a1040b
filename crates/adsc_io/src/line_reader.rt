//! The lines of a source, one by one.
ghost use Rattle.std.specs.Prelude.{◌≡◌, ◌≢◌, ℕ, ◌+◌, ◌<◌, ◌≤◌, ◌↔◌, ◌⊎◌, List, [], ◌++◌, Bool, true, false, not, nat_le, if◌then◌else◌, length, take, drop, slice_index, vec_len, vec_capacity, IsTrue, IfOk, IfSome, IfNone, OnErr, Ok};
ghost use Rattle.std.specs.Io.KnownBytes.{Consumes, IsAtEnd};
ghost use Rattle.adsc_io.specs.Causes.{HasCause};
ghost use Rattle.adsc_io.specs.Lines.{newline, IsUnbroken};
ghost use Rattle.adsc_io.specs.Readers.{Answers, GoesOn, IsReady, ReadsNext, ReadsPiece, StandsIn};

use crate::failures::{Failed, NoMemory, ReadFault};
use crate::limits::{MAX_LINE_BYTES, MAX_SCRIPT_BYTES, MAX_SCRIPT_LINES};
use crate::line::Line;
use crate::slices::line_length;
use crate::traits::Source;
use std::alloc::Global;
use std::marker::Model;

/// How many bytes one read asks for at most.
pub(crate) const PIECE_BYTES: usize = 16_384;

/// Reads the lines of a source one by one, in memory that it takes once.
///
/// It never holds more than one read gives and one line, so its memory doesn't grow with the input. This project's profile.
#[derive(Drop)]
pub struct LineReader {
    line: Vec<u8>,
    piece: Vec<u8>,
    at: usize,
    end: usize,
    begun: usize,
    taken: usize,
    number: u32,
    ended: bool,
    over: bool,
}

impl Model for LineReader {
    ghost use Rattle.std.specs.Prelude.{◌≡◌, ◌-◌, ◌<◌, ◌≤◌, take, drop, vec_len, vec_capacity};
    ghost use Rattle.adsc_io.specs.Readers.{LinesRead};
    ghost use Rattle.adsc_io.specs.declared.limits.TheConstants.{MAX_LINE_BYTES, MAX_SCRIPT_BYTES, MAX_SCRIPT_LINES};

    ghost Value = { LinesRead };

    ghost view = { λ r. record { number = r.number; text = r.line.items; begun = r.begun; taken = r.taken; held = take (r.end - r.at) (drop r.at r.piece.items); ended = r.ended; over = r.over } };

    ghost invariant = { λ r. (r.at ≤ r.end) × (r.end ≤ vec_len r.piece) × (0 < vec_len r.piece) × (MAX_LINE_BYTES ≤ vec_capacity r.line) × (vec_len r.line ≤ MAX_LINE_BYTES)
        × (r.begun ≤ r.taken) × (r.taken ≤ MAX_SCRIPT_BYTES) × (r.number ≤ MAX_SCRIPT_LINES)
        × (0 < r.begun → r.number < MAX_SCRIPT_LINES) × (0 < r.begun → r.begun ≤ MAX_LINE_BYTES → vec_len r.line ≡ r.begun) };
}

impl LineReader {
    /// A reader that stands at the beginning of an input.
    ///
    /// All memory is taken here, room for a line of 4,096 bytes and for a read. `NoMemory` is the only refusal.
    pub fn new(alloc: Global) -> Result<LineReader, NoMemory>
        ensures stands { IfOk result (λ reader. (bytes : List ℕ) → StandsIn bytes bytes reader) }
        ensures fresh { IfOk result (λ reader. (reader.number ≡ 0) × (reader.ended ≡ false)) }
    {
        Ok(LineReader {
            line: Vec::with_capacity(alloc, MAX_LINE_BYTES)?,
            piece: vec![in alloc; 0; PIECE_BYTES]?,
            at: 0,
            end: 0,
            begun: 0,
            taken: 0,
            number: 0,
            ended: false,
            over: false,
        })
    }

    /// The line that was answered last, without its newline, where the answer was `Text`.
    pub fn text(&self) -> &[u8]
        ensures text { result.now ≡ self.now.text }
        ensures short { length result.now ≤ MAX_LINE_BYTES }
    {
        &self.line
    }

    /// How many lines were answered: the number of the last one, counted from 1.
    pub fn number(&self) -> u32
        ensures number { result ≡ self.now.number }
        ensures few { result ≤ MAX_SCRIPT_LINES }
    {
        self.number
    }

    /// Reads the next line of the input, whatever pieces the source gives, and answers what it is.
    ///
    /// A line ends at a newline or with the input. `End` comes exactly where no line is left. `Limit` comes exactly where
    /// the line would have number 200,001, or where a byte of it, its newline included, would be byte 67,108,865 of the
    /// input; then every call answers it again. `TooLong` comes exactly where the line is within the limits and has more
    /// than 4,096 bytes. `ReadFault` comes only where the source's count of faults rose in this call; the bytes already
    /// taken are kept, and a later call goes on with them. No call takes memory. This project's profile.
    pub fn next<S: Source>(&mut self, source: &mut S) -> Result<Line, ReadFault>
        ensures next { ReadsNext self.old self.new (S.left source.old) (S.left source.new) result }
        ensures cause { HasCause (S.faults source.old) (S.faults source.new) result }
        ensures met { (line : ℕ) → result ≡ Ok (Line.Limit line) → IsTrue self.new.over }
        ensures again { IsTrue self.old.over → (result ≡ Ok (Line.Limit (self.old.number + 1))) × (source.new ≡ source.old) }
    {
        if self.over {
            return Ok(self.limit());
        }
        self.begin();
        loop {
            if let Some(line) = self.find() {
                return Ok(line);
            }
            if !self.read_piece(source)? {
                return Ok(self.finish());
            }
        }
    }

    /// The limit at the next line.
    fn limit(&self) -> Line
        ensures { result ≡ Line.Limit (self.now.number + 1) }
    {
        Line::Limit {
            line: self.number + 1,
        }
    }

    /// Forgets the last line, where the next one is not begun yet.
    fn begin(&mut self)
        ensures same { self.new ≡ record self.old { text = self.new.text } }
        ensures kept { 0 < self.old.begun → self.new.text ≡ self.old.text }
        ensures ready { IsReady self.new }
    {
        if self.begun == 0 {
            self.line.clear();
        }
    }

    /// What the bytes held say of the next line, or None where they end before it does.
    fn find(&mut self) -> Option<Line>
        requires ready { IsReady self.old }
        requires within { self.old.over ≡ false }
        ensures some { IfSome result (Answers self.old self.new) }
        ensures none { IfNone result (GoesOn self.old self.new) }
    {
        let held = &self.piece[self.at..self.end];
        if held.is_empty() {
            return None;
        }
        let count = line_length(held);
        if count < held.len() {
            return Some(self.end_line(count));
        }
        self.keep_all(count)
    }

    /// The next line, which a newline ends behind so many of the bytes held.
    fn end_line(&mut self, count: usize) -> Line
        requires ready { IsReady self.old }
        requires within { self.old.over ≡ false }
        requires unbroken { IsUnbroken (take count self.old.held) }
        requires ended { count < length self.old.held }
        requires newline { slice_index self.old.held count ≡ newline }
        ensures { Answers self.old self.new result }
    {
        if self.is_over(count, true) {
            return self.meet_limit();
        }
        self.keep(count);
        self.skip_newline();
        self.answer()
    }

    /// Takes the bytes held, none of which is a newline, into the next line, and answers where that meets the limit.
    fn keep_all(&mut self, count: usize) -> Option<Line>
        requires ready { IsReady self.old }
        requires within { self.old.over ≡ false }
        requires unbroken { IsUnbroken self.old.held }
        requires all { count ≡ length self.old.held }
        requires some { 0 < count }
        ensures some { IfSome result (Answers self.old self.new) }
        ensures none { IfNone result (GoesOn self.old self.new) }
    {
        if self.is_over(count, false) {
            return Some(self.meet_limit());
        }
        self.keep(count);
        None
    }

    /// Whether the next line is over the limit, where it has so many bytes more at least, and a newline.
    fn is_over(&self, count: usize, newline: bool) -> bool
        ensures { IsTrue result ↔ ((MAX_SCRIPT_LINES ≤ self.now.number) ⊎ (MAX_SCRIPT_BYTES < self.now.taken + count + (if newline then 1 else 0))) }
    {
        let room = MAX_SCRIPT_BYTES - self.taken;
        self.number == MAX_SCRIPT_LINES || count > room || (newline && count == room)
    }

    /// Answers the limit from now on.
    fn meet_limit(&mut self) -> Line
        ensures line { result ≡ Line.Limit (self.old.number + 1) }
        ensures after { self.new ≡ record self.old { over = true } }
    {
        self.over = true;
        self.limit()
    }

    /// Takes so many of the bytes held into the next line, and keeps them as long as it isn't too long.
    fn keep(&mut self, count: usize)
        requires ready { IsReady self.old }
        requires held { count ≤ length self.old.held }
        requires lines { self.old.number < MAX_SCRIPT_LINES }
        requires bytes { self.old.taken + count ≤ MAX_SCRIPT_BYTES }
        ensures text { self.old.begun + count ≤ MAX_LINE_BYTES → self.new.text ≡ self.old.text ++ take count self.old.held }
        ensures after { self.new ≡ record self.old { text = self.new.text; begun = self.old.begun + count; taken = self.old.taken + count; held = drop count self.old.held } }
    {
        let next = &self.piece[self.at..self.at + count];
        append_within(&mut self.line, self.begun, next);
        self.at += count;
        self.begun += count;
        self.taken += count;
    }

    /// Takes the newline that is held next.
    fn skip_newline(&mut self)
        requires held { 0 < length self.old.held }
        requires bytes { self.old.taken < MAX_SCRIPT_BYTES }
        ensures { self.new ≡ record self.old { taken = self.old.taken + 1; held = drop 1 self.old.held } }
    {
        self.at += 1;
        self.taken += 1;
    }

    /// The next line, which ends here.
    fn answer(&mut self) -> Line
        requires { self.old.number < MAX_SCRIPT_LINES }
        ensures line { result ≡ (if nat_le self.old.begun MAX_LINE_BYTES then Line.Text else Line.TooLong) }
        ensures after { self.new ≡ record self.old { number = self.old.number + 1; begun = 0 } }
    {
        let short = self.begun <= MAX_LINE_BYTES;
        self.begun = 0;
        self.number += 1;
        if short { Line::Text } else { Line::TooLong }
    }

    /// What stands at the end of the input: the line that was begun, or none.
    fn finish(&mut self) -> Line
        requires ready { IsReady self.old }
        requires within { self.old.over ≡ false }
        requires ended { self.old.ended ≡ true }
        requires held { self.old.held ≡ [] }
        ensures { Answers self.old self.new result }
    {
        if self.begun == 0 {
            return Line::End;
        }
        self.answer()
    }

    /// Reads more bytes, and answers whether there are any. Once the end was seen, nothing is read.
    fn read_piece<S: Source>(&mut self, source: &mut S) -> Result<bool, ReadFault>
        requires { self.old.held ≡ [] }
        ensures taken { Consumes (S.left source.old) (S.left source.new) self.new.held }
        ensures read { IfOk result (ReadsPiece self.old self.new (S.left source.old) (S.left source.new)) }
        ensures cause { HasCause (S.faults source.old) (S.faults source.new) result }
        ensures failed { OnErr result ((self.new ≡ self.old) × (self.old.ended ≡ false)) }
    {
        if self.ended {
            return Ok(false);
        }
        match source.read(&mut self.piece) {
            Ok(0) => {
                self.ended = true;
                Ok(false)
            }
            Ok(count) => {
                self.at = 0;
                self.end = count;
                Ok(true)
            }
            Err(Failed) => Err(ReadFault),
        }
    }
}

/// Appends these bytes to a line of which so many were read, as long as it isn't too long.
fn append_within(line: &mut Vec<u8>, begun: usize, bytes: &[u8])
    requires room { MAX_LINE_BYTES ≤ vec_capacity line.old }
    requires read { begun ≤ MAX_LINE_BYTES → vec_len line.old ≡ begun }
    ensures text { begun + length bytes.now ≤ MAX_LINE_BYTES → line.new.items ≡ line.old.items ++ bytes.now }
    ensures read { begun + length bytes.now ≤ MAX_LINE_BYTES → vec_len line.new ≡ begun + length bytes.now }
    ensures short { vec_len line.old ≤ MAX_LINE_BYTES → vec_len line.new ≤ MAX_LINE_BYTES }
    ensures room { MAX_LINE_BYTES ≤ vec_capacity line.new }
{
    if begun <= MAX_LINE_BYTES && bytes.len() <= MAX_LINE_BYTES - begun {
        match line.extend_from_slice(bytes) {
            Ok(()) => {}
            Err(_) => unreachable!(),
        }
    }
}
