//! Where a text differs from every text of its form.

/// The first mismatch of a text that is none of its form.
#[derive(Clone, Copy, Debug, PartialEq, Eq)]
pub struct AfnRefusal {
    /// Its place, counted from 0: the length of the text's longest beginning with which some text
    /// of the form begins. It is the length of a text that ends too soon.
    pub place: u32,
}
