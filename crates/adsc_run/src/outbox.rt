//! The texts of an outbox, and where those end that were found.
ghost use Rattle.std.specs.Prelude.{◌≡◌, ◌+◌, ◌-◌, ◌<◌, ◌≤◌, ℕ, List, [], length, None, Some, IfOk, IfErr, OnOk, slice_get, slice_set};
ghost use Rattle.adsc_io.specs.Lines.{script_lines};
ghost use Rattle.adsc_run.specs.Outboxes.{AreEnds, IsEnded, IsRest};
ghost use Rattle.adsc_run.specs.declared.outbox.TextEnds.{TextEnds as TextEndsValue};

use adsc_io::{NoMemory, next_line};
use std::alloc::Global;

/// Where the first texts of an outbox end, of as many as were found: the number of bytes up to each end, its newline included.
#[derive(Drop)]
pub(crate) struct TextEnds {
    pub(crate) ends: Vec<usize>,
}

impl TextEnds {
    /// No text is found yet.
    pub(crate) fn new(alloc: Global) -> TextEnds
        ensures { result.ends.items ≡ [] }
    {
        TextEnds {
            ends: Vec::new(alloc),
        }
    }

    /// The text at this place of the outbox, counted from 1; or how many there are.
    ///
    /// Of the outbox it reads what stands behind the texts that were found before, and of those this one alone.
    pub(crate) fn text_at<'a>(
        &mut self,
        outbox: &'a [u8],
        place: u32,
    ) -> Result<Result<&'a [u8], u32>, NoMemory>
        requires place { 1 ≤ place }
        requires ended { IsEnded outbox.now }
        requires ends { AreEnds self.old.ends.items (script_lines outbox.now) }
        ensures text { IfOk result (λ found. IfOk found (λ text. slice_get (script_lines outbox.now) (place - 1) ≡ Some text.now)) }
        ensures none { IfOk result (λ found. IfErr found (λ count. slice_get (script_lines outbox.now) (place - 1) ≡ None)) }
        ensures count { IfOk result (λ found. IfErr found (λ count. count ≡ length (script_lines outbox.now))) }
        ensures ends { OnOk result (AreEnds self.new.ends.items (script_lines outbox.now)) }
    {
        self.find(outbox, place - 1)?;
        Ok(self.found_at(outbox, place))
    }

    /// Finds the ends of the first so many texts of the outbox, or of all where there are fewer.
    fn find(&mut self, outbox: &[u8], count: u32) -> Result<(), NoMemory>
        requires ended { IsEnded outbox.now }
        requires ends { AreEnds self.old.ends.items (script_lines outbox.now) }
        ensures ends { OnOk result (AreEnds self.new.ends.items (script_lines outbox.now)) }
        ensures far { OnOk result (length self.new.ends.items < count → length self.new.ends.items ≡ length (script_lines outbox.now)) }
    {
        let mut rest = self.rest_behind(outbox, self.ends.len());
        for _ in self.ends.len()..count as usize {
            match next_line(rest) {
                Some((_, behind)) => {
                    self.ends.push(outbox.len() - behind.len())?;
                    rest = behind;
                }
                None => return Ok(()),
            }
        }
        Ok(())
    }

    /// The text at this place of the outbox, counted from 1, where those before it were found; or how many there are.
    fn found_at<'a>(&self, outbox: &'a [u8], place: u32) -> Result<&'a [u8], u32>
        requires place { 1 ≤ place }
        requires ended { IsEnded outbox.now }
        requires ends { AreEnds self.now.ends.items (script_lines outbox.now) }
        requires far { length self.now.ends.items < place - 1 → length self.now.ends.items ≡ length (script_lines outbox.now) }
        ensures text { IfOk result (λ text. slice_get (script_lines outbox.now) (place - 1) ≡ Some text.now) }
        ensures none { IfErr result (λ count. slice_get (script_lines outbox.now) (place - 1) ≡ None) }
        ensures count { IfErr result (λ count. count ≡ length (script_lines outbox.now)) }
    {
        let before = place as usize - 1;
        if self.ends.len() < before {
            return Err(self.ends.len() as u32);
        }
        match next_line(self.rest_behind(outbox, before)) {
            Some((text, _)) => Ok(text),
            None => Err(place - 1),
        }
    }

    /// What stands in the outbox behind the first so many texts, which were found.
    fn rest_behind<'a>(&self, outbox: &'a [u8], count: usize) -> &'a [u8]
        requires count { count ≤ length self.now.ends.items }
        requires ended { IsEnded outbox.now }
        requires ends { AreEnds self.now.ends.items (script_lines outbox.now) }
        ensures { IsRest outbox.now count result.now }
    {
        if count == 0 {
            return outbox;
        }
        &outbox[self.ends[count - 1]..]
    }
}

/// For each of so many links, that no text is found yet.
pub(crate) fn no_ends(alloc: Global, links: usize) -> Result<Vec<TextEnds>, NoMemory>
    ensures count { IfOk result (λ ends. length ends.items ≡ links) }
    ensures none { IfOk result (λ ends. (link : ℕ) (one : TextEndsValue) → slice_get ends.items link ≡ Some one → one.ends.items ≡ []) }
{
    let mut ends = Vec::new(alloc);
    for _ in 0..links {
        ends.push(TextEnds::new(alloc))?;
    }
    Ok(ends)
}

/// The text at this place, counted from 1, of this link's outbox; or how many there are.
pub(crate) fn downlink_at<'a>(
    ends: &mut Vec<TextEnds>,
    link: u8,
    outbox: &'a [u8],
    place: u32,
) -> Result<Result<&'a [u8], u32>, NoMemory>
    requires link { link < length ends.old.items }
    requires place { 1 ≤ place }
    requires ended { IsEnded outbox.now }
    requires ends { (one : TextEndsValue) → slice_get ends.old.items link ≡ Some one → AreEnds one.ends.items (script_lines outbox.now) }
    ensures text { IfOk result (λ found. IfOk found (λ text. slice_get (script_lines outbox.now) (place - 1) ≡ Some text.now)) }
    ensures none { IfOk result (λ found. IfErr found (λ count. slice_get (script_lines outbox.now) (place - 1) ≡ None)) }
    ensures count { IfOk result (λ found. IfErr found (λ count. count ≡ length (script_lines outbox.now))) }
    ensures ends { OnOk result ((one : TextEndsValue) × (ends.new.items ≡ slice_set ends.old.items link one)
        × AreEnds one.ends.items (script_lines outbox.now)) }
{
    ends[link as usize].text_at(outbox, place)
}
