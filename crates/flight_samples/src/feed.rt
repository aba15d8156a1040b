//! What a kept `csv` reader reads: one text after the other.

use std::alloc::Global;
use std::cell::RefCell;
use std::io::{self, Cursor, Read};
use std::vec::Vec;

/// The text that a kept `csv` reader reads next, with a newline behind it.
///
/// A `csv` reader owns its source and lends it out as `&Feed` alone, so the text lies in a cell. No clause can say what a cell
/// holds, and none here does: whoever reads records from a feed looks at what came.
#[derive(Drop)]
pub(crate) struct Feed {
    pending: RefCell<Cursor<Vec<u8>>>,
}

impl Feed {
    /// A feed with no text.
    pub(crate) fn new(alloc: Global) -> Feed {
        Feed {
            pending: RefCell::new(Cursor::new(Vec::new(alloc))),
        }
    }

    /// Puts this text in place of the one that is there, and answers whether it is there whole.
    pub(crate) fn fill(&self, text: &[u8]) -> bool {
        let Ok(mut pending) = self.pending.try_borrow_mut() else {
            return false;
        };
        pending.set_position(0);
        let bytes = pending.get_mut();
        bytes.clear();
        bytes.extend_from_slice(text).is_ok() && bytes.push(b'\n').is_ok()
    }
}

impl Read for Feed {
    fn read(&mut self, buf: &mut [u8]) -> io::Result<usize> {
        self.pending.get_mut().read(buf)
    }
}
