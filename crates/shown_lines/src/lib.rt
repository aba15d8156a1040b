//! Texts read, and shown as what they say.
//!
//! A test bench has a file of uplink and downlink texts, one a line, and wants to read them. This crate reads a line and
//! writes the lines that show what it says, or where it is wrong, into room that is taken once. The command `show` of
//! `adsc_bench` stands above it: it brings the lines one by one and takes their text away. What a text from the ground says
//! is read by `ground_texts`; texts from the aircraft are read here, with the crates of envelopes, downlinks and logons.
//!
//! Begin with specs/Meanings.antt, which says what a line means, then specs/Texts.antt, specs/UplinkTexts.antt and
//! specs/LogonTexts.antt, which say how a meaning is shown, and specs/Shown.antt, which says it of a whole input; then
//! `show`, `ground` and `room`.
#![tactic(auto)]

mod direction;
mod downlink;
mod ground;
mod groups;
mod head;
mod laws;
mod logon;
mod refusal;
mod room;
mod show;
mod uplink;

pub use laws::lines_have_one_shown_text;
pub use refusal::TextRefusal;
pub use show::{LineShown, ShownText};

#[cfg(test)]
mod tests;
