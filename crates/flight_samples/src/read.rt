//! Samples, read from the columns of sample lines.

ghost use Rattle.std.specs.Prelude.{◌≡◌, ◌≢◌, ◌⊎◌, ◌↔◌, ◌≤◌, ℤ, All, IfErr, IsTrue, IfOk, List, MatchResult, length};
ghost use Rattle.flight_samples.specs.SampleText.{AreSampleValues, IsPlain, IsSampleFault, IsSampleText, columns_of};
ghost use Rattle.flight_samples.specs.Samples.{values_of};

use crate::decimal::NumberFault;
use crate::row::sample_of_row;
use crate::sample::Sample;
use crate::splitter::Splitter;
use std::alloc::{AllocError, Global};

/// Why a text is no sample. This project's profile.
#[derive(Clone, Copy, Debug, PartialEq, Eq)]
pub enum SampleRefusal {
    /// The text does not have 26 columns. Its columns are not judged then.
    Count {
        /// How many columns it has: one more than it has commas.
        found: u32,
    },
    /// The text has 26 columns, and one of them gives no value.
    Column {
        /// The first such column, counted from 1.
        index: u32,
        /// What is wrong with it.
        why: NumberFault,
    },
    /// Memory ran out, which may come with any text.
    NoMemory,
}

/// The longest text of columns that is read, in bytes: that of the longest line of a script.
pub const LONGEST_COLUMNS: usize = 4096;

/// Whether each byte may stand in a text of columns: no quote, carriage return or newline, and none above 7E hexadecimal.
pub fn is_plain(columns: &[u8]) -> bool
    ensures { IsTrue result ↔ All IsPlain columns.now }
{
    columns.iter().all(|&byte| byte <= 0x7e && byte != b'"' && byte != b'\r' && byte != b'\n')
}

/// Reads the columns of sample lines, one line after the other.
///
/// It keeps the `csv` reader that splits lines, and the memory that it took for one line, for the next. A reader is some 17 kB
/// large: lend it rather than move it.
#[derive(Drop)]
pub struct SampleReader {
    splitter: Splitter,
}

impl SampleReader {
    /// A reader, which takes memory from its first line on.
    pub fn new(alloc: Global) -> SampleReader {
        SampleReader {
            splitter: Splitter::new(alloc),
        }
    }

    /// Reads the columns of a sample line: the text after `S,`. What was read before doesn't matter.
    ///
    /// The text is split at its commas, so an empty text has one column, which is empty. It is a sample exactly where it has
    /// 26 columns and each is the decimal text of a number in that column's range (see [`Sample`] for the ranges and units).
    /// Else the answer is `Count` exactly where there are not 26 columns, and `Column` exactly where there are 26, with the
    /// first bad one.
    ///
    /// The text has to be plain, as [`is_plain`] tests, and at most [`LONGEST_COLUMNS`] long. The crate `csv` splits it,
    /// which may take memory. After `NoMemory` the next line is read as any other.
    pub fn read(&mut self, columns: &[u8]) -> Result<Sample, SampleRefusal>
        requires size { length columns.now ≤ LONGEST_COLUMNS }
        requires plain { All IsPlain columns.now }

        ensures ok { IfOk result (λ s. IsSampleText s columns.now) }
        ensures refused { IfErr result (λ e. e ≢ SampleRefusal.NoMemory
            → IsSampleFault (columns_of columns.now) e) }

        // Each text of a sample is read, and each fault is told, where memory is found.
        ensures read { (values : List ℤ) → AreSampleValues (columns_of columns.now) values
            → MatchResult result (λ s. values_of s ≡ values) (λ e. e ≡ SampleRefusal.NoMemory) }
        ensures told { (e : SampleRefusal) → IsSampleFault (columns_of columns.now) e
            → (result ≡ Err e) ⊎ (result ≡ Err SampleRefusal.NoMemory) }
    {
        if let Some(sample) = self.splitter.sample(columns) {
            return Ok(sample);
        }
        self.read_by_column(columns)
    }

    /// Reads the columns of a sample line one by one, and names the first bad one.
    #[inline(never)]
    fn read_by_column(&mut self, columns: &[u8]) -> Result<Sample, SampleRefusal>
        requires size { length columns.now ≤ LONGEST_COLUMNS }
        requires plain { All IsPlain columns.now }

        ensures ok { IfOk result (λ s. IsSampleText s columns.now) }
        ensures refused { IfErr result (λ e. e ≢ SampleRefusal.NoMemory
            → IsSampleFault (columns_of columns.now) e) }
        ensures read { (values : List ℤ) → AreSampleValues (columns_of columns.now) values
            → MatchResult result (λ s. values_of s ≡ values) (λ e. e ≡ SampleRefusal.NoMemory) }
        ensures told { (e : SampleRefusal) → IsSampleFault (columns_of columns.now) e
            → (result ≡ Err e) ⊎ (result ≡ Err SampleRefusal.NoMemory) }
    {
        match self.splitter.split(columns) {
            Ok(row) => sample_of_row(row),
            Err(AllocError) => Err(SampleRefusal::NoMemory),
        }
    }
}

/// Reads the columns of one sample line, as [`SampleReader::read`] does, with a reader of its own.
///
/// Nothing is kept after the call. For many lines a [`SampleReader`] that is kept is much the faster one.
pub fn read_sample(alloc: Global, columns: &[u8]) -> Result<Sample, SampleRefusal>
    requires size { length columns.now ≤ LONGEST_COLUMNS }
    requires plain { All IsPlain columns.now }

    ensures ok { IfOk result (λ s. IsSampleText s columns.now) }
    ensures refused { IfErr result (λ e. e ≢ SampleRefusal.NoMemory
        → IsSampleFault (columns_of columns.now) e) }

    // Each text of a sample is read, and each fault is told, where memory is found.
    ensures read { (values : List ℤ) → AreSampleValues (columns_of columns.now) values
        → MatchResult result (λ s. values_of s ≡ values) (λ e. e ≡ SampleRefusal.NoMemory) }
    ensures told { (e : SampleRefusal) → IsSampleFault (columns_of columns.now) e
        → (result ≡ Err e) ⊎ (result ≡ Err SampleRefusal.NoMemory) }
{
    SampleReader::new(alloc).read(columns)
}
