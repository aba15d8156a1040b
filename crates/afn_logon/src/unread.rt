//! What is left of a text to read.
ghost use Rattle.std.specs.Prelude.{◌≡◌, ◌==◌, ◌≤◌, [], ◌∷◌, length, take, drop, IfOk, IfErr};
ghost use Rattle.afn_logon.specs.Reading.{Gives, begins_with, choice, leading, passing, several};

use crate::characters::Class;
use std::marker::Model;

/// A mismatch: how many characters are left from it on.
#[derive(Clone, Copy)]
pub(crate) struct Mismatch {
    pub(crate) left: usize,
}

/// The characters of a text that are left to read.
#[derive(Drop)]
pub(crate) struct Unread<'a> {
    rest: &'a [u8],
}

impl<'a> Model for Unread<'a> {
    ghost use Rattle.std.specs.Prelude.{List, ℕ};

    ghost Value = { List ℕ };

    ghost view = { λ u. u.rest.now };
}

impl<'a> Unread<'a> {
    /// All characters of a text.
    pub(crate) fn new(text: &'a [u8]) -> Unread<'a>
        ensures { result ≡ text.now }
    {
        Unread { rest: text }
    }

    /// Whether no character is left.
    pub(crate) fn is_empty(&self) -> bool
        ensures { result ≡ (length self.now == 0) }
    {
        self.rest.is_empty()
    }

    /// Whether a character stands first.
    pub(crate) fn begins_with(&self, character: u8) -> bool
        ensures { result ≡ begins_with character self.now }
    {
        match self.rest {
            [first, ..] => *first == character,
            [] => false,
        }
    }

    /// The mismatch at the first character that is left, or at the end.
    pub(crate) fn mismatch(&self) -> Mismatch
        ensures { result.left ≡ length self.now }
    {
        Mismatch {
            left: self.rest.len(),
        }
    }

    /// Takes the first character that is left.
    pub(crate) fn first(&mut self) -> Result<u8, Mismatch>
        ensures some { IfOk result (λ character. self.old ≡ character ∷ self.new) }
        ensures none { IfErr result (λ mismatch. (self.old ≡ []) × (mismatch.left ≡ 0)) }
    {
        let Some((character, rest)) = self.rest.split_first() else {
            return Err(self.mismatch());
        };
        self.rest = rest;
        Ok(*character)
    }

    /// Passes a character that is due.
    #[tactic(auto, unfolding(crate::specs::Reading::passing))]
    fn one(&mut self, due: u8) -> Result<(), Mismatch>
        ensures { Gives (λ u. u) result self.new (passing (due ∷ []) self.old) }
    {
        let left = self.mismatch();
        if self.first()? != due {
            return Err(left);
        }
        Ok(())
    }

    /// Passes characters that are due.
    pub(crate) fn pass(&mut self, due: &[u8]) -> Result<(), Mismatch>
        ensures { Gives (λ u. u) result self.new (passing due.now self.old) }
    {
        for character in due {
            self.one(*character)?;
        }
        Ok(())
    }

    /// Takes one of two characters: false for the first, true for the second.
    #[tactic(auto, unfolding(crate::specs::Reading::choice))]
    pub(crate) fn choice(&mut self, first: u8, second: u8) -> Result<bool, Mismatch>
        ensures { Gives (λ b. b) result self.new (choice first second self.old) }
    {
        let left = self.mismatch();
        let character = self.first()?;
        if character == first {
            return Ok(false);
        }
        if character == second {
            return Ok(true);
        }
        Err(left)
    }

    /// How many characters of a class stand first, up to a number.
    pub(crate) fn leading(&self, most: usize, class: Class) -> usize
        ensures value { result ≡ leading most class self.now }
        ensures within { result ≤ length self.now }
        ensures bound { result ≤ most }
    {
        self.rest
            .iter()
            .take(most)
            .take_while(|character| class.holds(**character))
            .count()
    }

    /// Takes a number of characters.
    pub(crate) fn taken(&mut self, count: usize) -> &'a [u8]
        requires { count ≤ length self.old }
        ensures value { result.now ≡ take count self.old }
        ensures left { self.new ≡ drop count self.old }
    {
        let (taken, rest) = self.rest.split_at(count);
        self.rest = rest;
        taken
    }

    /// Takes a number of characters of a class.
    #[tactic(auto, unfolding(crate::specs::Reading::several))]
    pub(crate) fn several(&mut self, count: usize, class: Class) -> Result<&'a [u8], Mismatch>
        ensures { Gives (λ front. front.now) result self.new (several count class self.old) }
    {
        let right = self.leading(count, class);
        if right < count {
            return Err(Mismatch {
                left: self.rest.len() - right,
            });
        }
        Ok(self.taken(count))
    }
}
