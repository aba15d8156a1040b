//! The lines of an input that a slice holds whole.
ghost use Rattle.std.specs.Prelude.{◌≡◌, ◌≢◌, ℕ, ◌+◌, ◌-◌, ◌<◌, ◌≤◌, ◌↔◌, ◌⊎◌, List, [], ◌∷◌, ◌++◌, length, take, drop, slice_index, IsTrue, IsNone, IfNone, IfSome};
ghost use Rattle.adsc_io.specs.Lines.{newline, script_lines, BeginsWithLine};

use memchr::memchr;

/// The place of the first newline, or the number of bytes where there is none.
pub(crate) fn line_length(bytes: &[u8]) -> usize
    ensures within { result ≤ length bytes.now }
    ensures unbroken { (k : ℕ) → k < result → slice_index bytes.now k ≢ newline }
    ensures ended { result < length bytes.now → slice_index bytes.now result ≡ newline }
{
    match memchr(b'\n', bytes) {
        Some(place) => place,
        None => bytes.len(),
    }
}

/// The next line of an input, without its newline, and the bytes behind it. This project's profile.
///
/// A line ends at a newline or with the input, and a newline at the very end begins no further line. `None` comes exactly
/// where no byte is left, so a loop that goes on with the bytes behind the line meets each line of the input once.
#[tactic(auto, using(crate::proofs::LinesLaws::lines_found))]
pub fn next_line(bytes: &[u8]) -> Option<(&[u8], &[u8])>
    ensures none { IsNone result ↔ (bytes.now ≡ []) }
    ensures end { IfNone result (script_lines bytes.now ≡ []) }
    ensures line { IfSome result (λ next. script_lines bytes.now ≡ next.0.now ∷ script_lines next.1.now) }
    ensures cut { IfSome result (λ next. BeginsWithLine bytes.now next.0.now next.1.now) }
    ensures shorter { IfSome result (λ next. length next.1.now < length bytes.now) }
{
    if bytes.is_empty() {
        return None;
    }
    let end = line_length(bytes);
    let (line, behind) = bytes.split_at(end);
    Some((line, behind_newline(behind)))
}

/// The bytes behind the newline that stands first, or none where nothing stands.
fn behind_newline(bytes: &[u8]) -> &[u8]
    ensures { result.now ≡ drop 1 bytes.now }
{
    match bytes {
        [] => bytes,
        [_, rest @ ..] => rest,
    }
}
