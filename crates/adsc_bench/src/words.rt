//! The words of the command line.
ghost use Rattle.std.specs.Prelude.{◌≡◌, ◌≤◌, ◌<◌, ◌^◌, ◌↔◌, ℕ, [], ◌∷◌, IsTrue, IfSome, IfNone, decimal, map};
ghost use Rattle.std.specs.String.{string_bytes};
ghost use Rattle.adsc_bench.specs.Words.{AreScript, AskForMake, AskForRun, AskForShow, digit};

use itoa::Buffer;

/// On how many workers the words ask for a run, if they do.
pub(crate) fn ask_for_run(words: &[String]) -> Option<u8>
    ensures some { IfSome result (λ workers. AskForRun workers (map string_bytes words.now)) }
    ensures none { IfNone result ((workers : ℕ) → AskForRun workers (map string_bytes words.now) → ⊥) }
{
    match words {
        [command, count] if command.as_str() == "run" => workers_of(count.as_str().as_bytes()),
        _ => None,
    }
}

/// The number of workers that this word is.
fn workers_of(word: &[u8]) -> Option<u8>
    ensures some { IfSome result (λ workers. (1 ≤ workers) × (workers ≤ 5) × (word.now ≡ digit workers ∷ [])) }
    ensures none { IfNone result ((workers : ℕ) → 1 ≤ workers → workers ≤ 5 → word.now ≡ digit workers ∷ [] → ⊥) }
{
    match word {
        [one @ b'1'..=b'5'] => Some(*one - b'0'),
        _ => None,
    }
}

/// Whether the words ask for texts to be shown.
pub(crate) fn ask_for_show(words: &[String]) -> bool
    ensures { IsTrue result ↔ AskForShow (map string_bytes words.now) }
{
    match words {
        [command] => command.as_str() == "show",
        _ => false,
    }
}

/// The number and the count of lines of the script that the words ask for, if they ask for one.
pub(crate) fn ask_for_make(words: &[String]) -> Option<(u32, u32)>
    ensures some { IfSome result (λ asked. AskForMake asked.0 asked.1 (map string_bytes words.now)) }
    ensures none { IfNone result ((number lines : ℕ) → AskForMake number lines (map string_bytes words.now) → ⊥) }
{
    match words {
        [command, number, lines] if command.as_str() == "make" => {
            script_of(number.as_str(), lines.as_str())
        }
        _ => None,
    }
}

/// The number and the count of lines that these two words are.
fn script_of(number: &str, lines: &str) -> Option<(u32, u32)>
    ensures some { IfSome result (λ asked. AreScript asked.0 asked.1 number.now lines.now) }
    ensures none { IfNone result ((n m : ℕ) → AreScript n m number.now lines.now → ⊥) }
{
    let number = number_of(number)?;
    match number_of(lines)? {
        lines @ 3..=200_000 => Some((number, lines)),
        _ => None,
    }
}

/// The number of 32 bits that this word is, in decimal without a leading zero.
fn number_of(word: &str) -> Option<u32>
    ensures some { IfSome result (λ number. (number < 2 ^ 32) × (word.now ≡ decimal number)) }
    ensures none { IfNone result ((number : ℕ) → number < 2 ^ 32 → word.now ≡ decimal number → ⊥) }
{
    let Ok(number) = word.parse::<u32>() else {
        return None;
    };
    let mut digits = Buffer::new();
    if digits.format(number) == word {
        return Some(number);
    }
    None
}
