//! The texts from the ground: what each does to the aircraft.
ghost use Rattle.std.specs.Prelude.{◌≡◌, ◌==◌, ◌+◌, ◌-◌, ◌<◌, ◌≤◌, ℕ, List, [], ◌∷◌, ◌++◌, All, true, false, length, IfOk, IfErr, OnOk, None, Some, slice_get};
ghost use Rattle.run_rules.specs.Happenings.{Happening, Entered, is_text_on};
ghost use Rattle.adsc_run.specs.Courses.{Did, StandsBehind};
ghost use Rattle.aircraft_core.specs.Entries.{IsTakenBy};
ghost use Rattle.aircraft_core.specs.declared.entry.Entry.TheVariants as entries;
ghost use Rattle.run_rules.specs.Texts.{answer_step, characters_place, characters_step, flight_place, link_to, notice_step, payload_happenings, refuses, takes, text_step, uplink_step};
ghost use Rattle.run_rules.specs.declared.refused.RefusedWhy.TheVariants as why;
ghost use Rattle.script_reading.specs.Readable.{IsReadAnswer, IsReadText, IsReadUplink};

use crate::course::Course;
use crate::ending::bad_line;
use crate::links::link_to as link_of;
use crate::station::Role;
use crate::stations::{give_role, role_at};
use adsc_io::NoMemory;
use afn_logon::{AfnRefusal, Answer};
use aircraft_core::Entry;
use arrayvec::ArrayVec;
use ground_texts::{AdsUplink, AfnUplink, GroundText};
use net_script::Code;
use run_rules::{End, RefusedWhy};

/// The place of the registration in an ADS text.
const REGISTRATION_PLACE: u32 = 12;

/// The place where the characters of an AFN text begin.
const CHARACTERS_PLACE: u32 = 12;

/// The place of the flight in the text of an answer.
const FLIGHT_PLACE: u32 = 16;

impl Course {
    /// Takes a text from the ground, or refuses it: by its envelope, then by its address; then by its registration and its
    /// payload, or by its answer and the registration of that. What is taken may not come from a centre's address.
    pub(crate) fn take_text(
        &mut self,
        line: u32,
        text: &GroundText,
    ) -> Result<Option<End>, NoMemory>
        requires few { length self.old.craft.setting.addresses ≤ 64 }
        requires count { length self.old.stations.items ≡ length self.old.craft.setting.addresses }
        requires read { IsReadText text.now }
        ensures { (log : List Happening) → StandsBehind self.old log → IfOk result (Did true (text_step self.old.craft.setting log line text.now) line log self.old self.new) }
    {
        match text {
            GroundText::Refused(fault) => self.refuse(line, RefusedWhy::Envelope(*fault)),
            GroundText::Afn(notice) => self.take_notice(line, notice),
            GroundText::Ads(uplink) => self.take_uplink(line, uplink),
        }
    }

    /// Takes an uplink to a link of the aircraft, or refuses it.
    fn take_uplink(&mut self, line: u32, uplink: &AdsUplink) -> Result<Option<End>, NoMemory>
        requires few { length self.old.craft.setting.addresses ≤ 64 }
        requires count { length self.old.stations.items ≡ length self.old.craft.setting.addresses }
        requires read { IsReadUplink uplink.now }
        ensures { (log : List Happening) → StandsBehind self.old log → IfOk result (Did true (uplink_step self.old.craft.setting log line uplink.now (link_to self.old.craft.setting uplink.now.address)) line log self.old self.new) }
    {
        let Some(link) = link_of(&self.craft, uplink.address) else {
            return self.refuse(line, RefusedWhy::UnknownAddress);
        };
        if uplink.registration == self.craft.registration() {
            return self.take_payload(line, link, uplink);
        }
        self.refuse(
            line,
            RefusedWhy::OtherRegistration {
                place: REGISTRATION_PLACE,
            },
        )
    }

    /// Takes an answer to a logon on a link of the aircraft, or refuses it.
    fn take_notice(&mut self, line: u32, notice: &AfnUplink) -> Result<Option<End>, NoMemory>
        requires few { length self.old.craft.setting.addresses ≤ 64 }
        requires count { length self.old.stations.items ≡ length self.old.craft.setting.addresses }
        requires read { IsReadAnswer notice.now.answer }
        ensures { (log : List Happening) → StandsBehind self.old log → IfOk result (Did true (notice_step self.old.craft.setting log line notice.now (link_to self.old.craft.setting notice.now.address)) line log self.old self.new) }
    {
        let Some(link) = link_of(&self.craft, notice.address) else {
            return self.refuse(line, RefusedWhy::UnknownAddress);
        };
        self.take_characters(line, link, &notice.answer)
    }

    /// Takes the characters of an AFN text, which were read so, or refuses them.
    fn take_characters(
        &mut self,
        line: u32,
        link: u8,
        answer: &Result<Answer, AfnRefusal>,
    ) -> Result<Option<End>, NoMemory>
        requires count { length self.old.stations.items ≡ length self.old.craft.setting.addresses }
        requires link { link < length self.old.craft.setting.addresses }
        requires read { IsReadAnswer answer.now }
        ensures { (log : List Happening) → StandsBehind self.old log → IfOk result (Did true (characters_step self.old.craft.setting log line link answer.now) line log self.old self.new) }
    {
        match answer {
            Ok(answer) => self.take_answer(line, link, answer),
            Err(refusal) => self.refuse_answer(line, refusal.place),
        }
    }

    /// Refuses a text whose characters are no answer, at this place of them.
    fn refuse_answer(&mut self, line: u32, place: u32) -> Result<Option<End>, NoMemory>
        requires { place ≤ 255 }
        ensures { (log : List Happening) → StandsBehind self.old log → IfOk result (Did true (refuses line (why.Afn (characters_place + place))) line log self.old self.new) }
    {
        self.refuse(
            line,
            RefusedWhy::Afn {
                place: CHARACTERS_PLACE + place,
            },
        )
    }

    /// Enters an answer to a logon, or refuses it where it is for another aircraft.
    fn take_answer(&mut self, line: u32, link: u8, answer: &Answer) -> Result<Option<End>, NoMemory>
        requires count { length self.old.stations.items ≡ length self.old.craft.setting.addresses }
        requires link { link < length self.old.craft.setting.addresses }
        ensures { (log : List Happening) → StandsBehind self.old log → IfOk result (Did true (answer_step self.old.craft.setting log line link answer.now) line log self.old self.new) }
    {
        if answer.registration == self.craft.registration() {
            let entry = Entry::Answer {
                line,
                link,
                code: answer.code,
            };
            return self.take_on(line, link, entry);
        }
        self.refuse(
            line,
            RefusedWhy::OtherRegistration {
                place: registration_place(answer),
            },
        )
    }

    /// Enters an uplink whose text is taken, and refuses its payload besides, where that is malformed.
    fn take_payload(
        &mut self,
        line: u32,
        link: u8,
        uplink: &AdsUplink,
    ) -> Result<Option<End>, NoMemory>
        requires count { length self.old.stations.items ≡ length self.old.craft.setting.addresses }
        requires link { link < length self.old.craft.setting.addresses }
        requires read { IsReadUplink uplink.now }
        ensures { (log : List Happening) → StandsBehind self.old log → IfOk result (Did true (takes log link (payload_happenings line (entries.Uplink line link uplink.now.octets) uplink.now.asked)) line log self.old self.new) }
    {
        let mut bytes = ArrayVec::new();
        append_octets(&mut bytes, uplink);
        let entry = Entry::Uplink { line, link, bytes };
        let end = self.take_on(line, link, entry)?;
        match &uplink.asked {
            Ok(_) => Ok(end),
            Err(refusal) => match end {
                Some(_) => Ok(end),
                None => self.refuse(line, RefusedWhy::Bits(*refusal)),
            },
        }
    }

    /// Takes this entry of a text on this link, unless the address is a centre's: then the line is bad.
    fn take_on(&mut self, line: u32, link: u8, entry: Entry) -> Result<Option<End>, NoMemory>
        requires count { length self.old.stations.items ≡ length self.old.craft.setting.addresses }
        requires link { link < length self.old.craft.setting.addresses }
        requires taken { IsTakenBy self.old.craft.setting entry }
        requires text { (other : ℕ) → is_text_on other entry ≡ (other == link) }
        ensures { (log : List Happening) → StandsBehind self.old log → IfOk result (Did true (takes log link (Entered entry ∷ [])) line log self.old self.new) }
    {
        if role_at(&self.stations, link) == Role::Centre {
            return Ok(Some(bad_line(line, Code::Role, 0)));
        }
        give_role(&mut self.stations, link, Role::Raw);
        self.join(entry)
    }
}

/// Puts the octets of an uplink's payload, for the journal, into a list without any.
fn append_octets(octets: &mut ArrayVec<u8, 255>, uplink: &AdsUplink)
    requires empty { octets.old.items ≡ [] }
    requires read { IsReadUplink uplink.now }
    ensures { octets.new ≡ uplink.now.octets }
{
    octets
        .try_extend_from_slice(uplink.octets.as_slice())
        .unwrap();
}

/// The place of the registration in the text of an answer: behind the flight and a comma.
fn registration_place(answer: &Answer) -> u32
    ensures { result ≡ flight_place + length answer.now.flight + 1 }
{
    FLIGHT_PLACE + answer.flight.text().len() as u32 + 1
}
