//! The columns of a text, split at its commas by one `csv` reader that is kept for many texts.

ghost use Rattle.std.specs.Prelude.{◌≡◌, ◌++◌, [], All, IfOk, IfSome, IsTrue, OnOk, option_map};
ghost use Rattle.csv.specs.Machine.{next_record};
ghost use Rattle.csv.specs.Reading.{default_config, strip_bom};
ghost use Rattle.csv.specs.Records.{fields_of};
ghost use Rattle.csv.specs.declared.parser.State.TheVariants as st;
ghost use Rattle.flight_samples.specs.SampleText.{HasNoComma, IsPlain, IsSampleText, columns_of};

use crate::feed::Feed;
use crate::row::field_at;
use crate::sample::Sample;
use crate::sight::sample_seen;
use csv::{ByteRecord, Error, Reader, ReaderBuilder};
use std::alloc::{AllocError, Global};

/// A `csv` reader with the row that it reads into, both kept from text to text.
///
/// A reader is dear to make, as it makes its tables anew. What a kept one gives depends on what its feed holds, of which nothing
/// can be proved. So each row is looked at: where it doesn't have the text's columns (it always has), a new reader is made to be
/// kept, and the text is read by a reader of its own, whose row the contracts of `csv` tell.
#[derive(Drop)]
pub(crate) struct Splitter {
    alloc: Global,
    reader: Reader<Feed>,
    row: ByteRecord,
}

impl Splitter {
    /// A splitter, which takes memory from its first text on.
    pub(crate) fn new(alloc: Global) -> Splitter {
        Splitter {
            alloc,
            reader: feed_reader(alloc),
            row: ByteRecord::new(alloc),
        }
    }

    /// The sample of the text, where its columns are as long as the fields of the row that the kept reader gives.
    pub(crate) fn sample(&mut self, text: &[u8]) -> Option<Sample>
        ensures { IfSome result (λ sample. IsSampleText sample text.now) }
    {
        if !self.read_kept(text) {
            return None;
        }
        sample_seen(&self.row, text)
    }

    /// The columns of the text.
    pub(crate) fn split(&mut self, text: &[u8]) -> Result<&ByteRecord, AllocError>
        requires { All IsPlain text.now }
        ensures { IfOk result (λ row. fields_of row.now ≡ columns_of text.now) }
    {
        if !(self.read_kept(text) && is_split(&self.row, text)) {
            self.split_anew(text)?;
        }
        Ok(&self.row)
    }

    /// Reads the text into the row with the kept reader, and answers whether that succeeded.
    fn read_kept(&mut self, text: &[u8]) -> bool {
        if text.is_empty() {
            // To `csv` an empty line is no record.
            self.row.clear();
            return self.row.push_field(&[]).is_ok();
        }
        self.reader.get_ref().fill(text) && self.reader.read_byte_record(&mut self.row).is_ok()
    }

    /// Reads the text into the row with a reader of its own, and makes a new reader to be kept.
    ///
    /// It stands apart since it holds readers, and a function pays for the size of what it holds each time that it is called.
    #[cold]
    #[inline(never)]
    fn split_anew(&mut self, text: &[u8]) -> Result<(), AllocError>
        requires { All IsPlain text.now }
        ensures { OnOk result (fields_of self.new.row ≡ columns_of text.now) }
    {
        self.reader = feed_reader(self.alloc);
        self.row = split_alone(self.alloc, text)?;
        Ok(())
    }
}

/// A reader of what its feed is filled with: lines without a header, of any number of fields.
fn feed_reader(alloc: Global) -> Reader<Feed> {
    ReaderBuilder::new()
        .has_headers(false)
        .flexible(true)
        .from_reader(alloc, Feed::new(alloc))
}

/// Whether the row is seen to have the text's columns: no field has a comma, and with commas between them they are the text.
fn is_split(row: &ByteRecord, text: &[u8]) -> bool
    ensures { IsTrue result → fields_of row.now ≡ columns_of text.now }
{
    let mut rest = text;
    for place in 0..row.len() {
        let Some(behind) = behind_field(field_at(row, place), rest) else {
            return false;
        };
        match behind.split_first() {
            Some((b',', more)) => rest = more,
            Some(_) => return false,
            None => return place + 1 == row.len(),
        }
    }
    false
}

/// What stands behind the field, where the text begins with it and it has no comma.
fn behind_field<'a>(field: &[u8], text: &'a [u8]) -> Option<&'a [u8]>
    ensures begins { IfSome result (λ behind. text.now ≡ field.now ++ behind.now) }
    ensures whole { IfSome result (λ behind. HasNoComma field.now) }
{
    if text.len() < field.len() {
        return None;
    }
    let (front, behind) = text.split_at(field.len());
    for place in 0..field.len() {
        if field[place] == b',' || field[place] != front[place] {
            return None;
        }
    }
    Some(behind)
}

/// The columns of the text, split by a reader of its own.
fn split_alone(alloc: Global, text: &[u8]) -> Result<ByteRecord, AllocError>
    requires { All IsPlain text.now }
    ensures { IfOk result (λ row. fields_of row ≡ columns_of text.now) }
{
    match first_record(alloc, text) {
        Ok(Some(row)) => Ok(row),
        Ok(None) => ByteRecord::from_fields(alloc, &[text]),
        Err(_) => Err(AllocError),
    }
}

/// The first record of a text, if it has one.
fn first_record(alloc: Global, text: &[u8]) -> Result<Option<ByteRecord>, Error>
    ensures { IfOk result (λ row. option_map fields_of row
        ≡ option_map (λ p. p.0) (next_record default_config st.StartRecord [] [] (strip_bom text.now))) }
{
    let mut reader = ReaderBuilder::new()
        .has_headers(false)
        .from_reader(alloc, text);
    let mut row = ByteRecord::new(alloc);
    if reader.read_byte_record(&mut row)? {
        Ok(Some(row))
    } else {
        Ok(None)
    }
}
