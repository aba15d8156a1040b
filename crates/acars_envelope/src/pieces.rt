//! Pieces of a text, held and appended in place.
ghost use Rattle.std.specs.Prelude.{◌≡◌, ◌+◌, ◌≤◌, ◌++◌, length};
ghost use Rattle.arrayvec.specs.ArrayVec.{array_vec_len};

use arrayvec::ArrayVec;

/// Appends a piece to a text that has room for it.
pub(crate) fn append<const N: usize>(text: &mut ArrayVec<u8, N>, piece: &[u8])
    requires { array_vec_len text.old + length piece.now ≤ N }
    ensures items { text.new.items ≡ text.old.items ++ piece.now }
    ensures len { array_vec_len text.new ≡ array_vec_len text.old + length piece.now }
{
    text.try_extend_from_slice(piece).unwrap();
}

/// A body's octets or characters, held in place.
pub(crate) fn held(piece: &[u8]) -> ArrayVec<u8, 255>
    requires { length piece.now ≤ 255 }
    ensures { result.items ≡ piece.now }
{
    let mut held = ArrayVec::new();
    append(&mut held, piece);
    held
}
