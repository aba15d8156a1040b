//! The fields of a line: the pieces between its commas.

ghost use Rattle.std.specs.Prelude.{◌≡◌, ◌≢◌, ℕ, ◌+◌, ◌<◌, ◌≤◌, ◌∷◌, ◌++◌, length, slice_index, count_by, ◌==◌, IfSome, IfNone};
ghost use Rattle.adsc_io.specs.Limits.{max_line_bytes};
ghost use Rattle.net_script.specs.Fields.{comma, field_at, fields_of};

/// How many commas the line has: one less than it has fields.
pub(crate) fn comma_count(line: &[u8]) -> usize
    requires { length line.now ≤ max_line_bytes }
    ensures fields { length (fields_of line.now) ≡ result + 1 }
    ensures within { result ≤ length line.now }
{
    usize::from(count_commas(line))
}

/// How many bytes of the line are commas, counted in one loop. The count is a small number, so that many bytes are looked at in
/// one step.
fn count_commas(line: &[u8]) -> u16
    requires { length line.now ≤ max_line_bytes }
    ensures commas { result ≡ count_by (λ byte. byte == comma) line.now }
    ensures within { result ≤ length line.now }
{
    let mut count = 0u16;
    for byte in line {
        if *byte == b',' {
            count += 1;
        }
    }
    count
}

/// The field of a line at the place, counted from 0; it is empty where the line has none there. This project's profile.
pub fn field_at(line: &[u8], place: usize) -> &[u8]
    ensures { result.now ≡ field_at (fields_of line.now) place }
{
    let mut rest = line;
    let mut left = place;
    while left > 0 {
        match behind_comma(rest) {
            Some(behind) => rest = behind,
            None => return &[],
        }
        left -= 1;
    }
    first_field(rest)
}

/// What stands behind the first comma of a text, or None where it has none. This project's profile.
pub fn behind_comma(text: &[u8]) -> Option<&[u8]>
    ensures joined { IfSome result (λ rest.
        text.now ≡ field_at (fields_of text.now) 0 ++ comma ∷ rest.now) }
    ensures some { IfSome result (λ rest.
        fields_of text.now ≡ field_at (fields_of text.now) 0 ∷ fields_of rest.now) }
    ensures none { IfNone result (length (fields_of text.now) ≡ 1) }
{
    let end = field_length(text);
    if end == text.len() {
        return None;
    }
    Some(&text[end + 1..])
}

/// What stands before the first comma, or all where there is none.
fn first_field(text: &[u8]) -> &[u8]
    ensures { result.now ≡ field_at (fields_of text.now) 0 }
{
    &text[..field_length(text)]
}

/// The place of the first comma, or the number of bytes where there is none.
fn field_length(text: &[u8]) -> usize
    ensures within { result ≤ length text.now }
    ensures unbroken { (k : ℕ) → k < result → slice_index text.now k ≢ comma }
    ensures ended { result < length text.now → slice_index text.now result ≡ comma }
{
    for (place, byte) in text.iter().enumerate() {
        if *byte == b',' {
            return place;
        }
    }
    text.len()
}
