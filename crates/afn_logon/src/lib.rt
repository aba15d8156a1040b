//! The texts of the facilities notification (AFN) of FANS 1/A by which a flight logs on to a
//! centre: the contact that the aircraft sends and the answer of the centre (RTCA DO-258A / EUROCAE
//! ED-100A; the fields are this project's profile), and the state of a logon. The envelope round a
//! text is that of `acars_envelope`; the aircraft, the centre and what shows texts stand above this
//! crate.
//!
//! [`read_contact`] and [`read_answer`] answer the value exactly where the text is its text, and
//! else the text's first mismatch: the length of its longest beginning that some text of the form
//! has. [`write_contact`] and [`write_answer`] write the one text of a value. No call takes memory.
//!
//! Begin with specs/Contents.antt, what the texts say, then specs/Texts.antt, the texts field by
//! field, and specs/Mismatch.antt. The clauses of the readers are in src/reader.rt, those of the
//! writers in src/writer.rt; src/making.rt has the aircraft's contact and the centre's answer,
//! src/logon.rt the state, and src/laws.rt what holds of every value and every text.
#![tactic(auto)]

mod answer;
mod application;
mod applications;
mod characters;
mod contact;
mod kind;
mod laws;
mod logon;
mod making;
mod names;
mod numbers;
mod position;
mod reader;
mod refusal;
#[cfg(test)]
mod tests;
mod unread;
mod writer;

pub use answer::Answer;
pub use application::Application;
pub use contact::Contact;
pub use laws::{one_reading, same_data_same_value, texts_are_carried};
pub use logon::Logon;
pub use position::Position;
pub use reader::{read_answer, read_contact};
pub use refusal::AfnRefusal;
pub use writer::{write_answer, write_contact};
