//! Where a line may stand.

ghost use Rattle.std.specs.Prelude.{◌≡◌, Some, None, IfSome, IfNone};
ghost use Rattle.net_script.specs.declared.refusal.Code.{Code as CodeValue};
ghost use Rattle.run_rules.specs.Places.{IsInPlace, IsMisplaced, IsMisplacedBy, head_letter};

use net_script::{Code, Letter, has_letter};

/// What is wrong with the place of the line of this number, or None where it stands where it may.
pub(crate) fn misplaced(number: u32, line: &[u8]) -> Option<Code>
    ensures some { IfSome result (IsMisplaced number line.now) }
    ensures none { IfNone result (IsInPlace number line.now) }
{
    match head_letter(number) {
        Some(letter) => misplaced_in_head(letter, line),
        None => misplaced_behind_head(line),
    }
}

/// The letter that the line of this number has to have, or None where it stands behind the head.
fn head_letter(number: u32) -> Option<Letter>
    ensures { result ≡ head_letter number }
{
    match number {
        1 => Some(Letter::Aircraft),
        2 => Some(Letter::Ground),
        3 => Some(Letter::Sample),
        _ => None,
    }
}

/// What is wrong with a line of the head that has to have this letter.
fn misplaced_in_head(letter: Letter, line: &[u8]) -> Option<Code>
    ensures some { IfSome result (IsMisplacedBy (Some letter) line.now) }
    ensures none { IfNone result ((found : CodeValue) → IsMisplacedBy (Some letter) line.now found → ⊥) }
{
    if has_letter(line, letter) {
        None
    } else {
        Some(Code::Head)
    }
}

/// What is wrong with a line behind the head, which has any letter but those of the first two lines.
fn misplaced_behind_head(line: &[u8]) -> Option<Code>
    ensures some { IfSome result (IsMisplacedBy None line.now) }
    ensures none { IfNone result ((found : CodeValue) → IsMisplacedBy None line.now found → ⊥) }
{
    if has_letter(line, Letter::Aircraft) {
        return Some(Code::Kind);
    }
    if has_letter(line, Letter::Ground) {
        return Some(Code::Kind);
    }
    None
}
