//! The text round an uplink or a downlink of FANS 1/A: a slash, a ground facility's address, a dot, the
//! letters of the application that the body is for, the body, and a check over it. The form follows
//! ARINC 622; the check, the lengths and the order in which a bad text is judged are this project's
//! profile.
//!
//! [`seal`] writes the one text of an [`Envelope`], and [`unseal`] reads it back: it answers an envelope
//! exactly where the text is that envelope's, and else the text's first bad place with its cause. What a
//! payload's octets or a facilities notification's characters mean is read by the crates above; this one
//! carries them. [`append_ads_text`] writes an ADS text in place at the end of a buffer. No call takes memory.
//!
//! Begin with specs/Texts.antt, the text of an envelope, then specs/Check.antt, the check as a division
//! of polynomials, and specs/Faults.antt, the rules for the first bad place. The clauses of `unseal` in
//! src/reader.rt say how they belong together; src/writer.rt has `seal`, src/check.rt the check code.
#![tactic(auto)]

mod ads;
mod afn;
mod appending;
mod check;
mod decoding;
mod encoding;
mod names;
mod pieces;
mod places;
mod reader;
mod refusal;
mod remainders;
#[cfg(test)]
mod tests;
mod texts;
mod writer;

pub use appending::append_ads_text;
pub use check::{check_code, division_leaves_the_remainder};
pub use decoding::octets_of_digits;
pub use encoding::write_digits;
pub use names::{Address, Flight, Registration};
pub use reader::unseal;
pub use refusal::{EnvelopeRefusal, EnvelopeWhy};
pub use texts::{Body, Envelope, Text};
pub use writer::seal;
