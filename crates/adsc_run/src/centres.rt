//! The lines of the centres.
ghost use Rattle.std.specs.Prelude.{◌≡◌, ◌≢◌, ◌+◌, ◌-◌, ◌<◌, ◌≤◌, ℕ, List, [], ◌∷◌, ◌++◌, All, true, false, length, IfOk, IfErr, IsSome, OnOk, None, Some, slice_get};
ghost use Rattle.run_rules.specs.Happenings.{Happening, is_raw, sent_messages};
ghost use Rattle.adsc_run.specs.Courses.{Did, EndsWith, KnowsEnds, StandsBehind};
ghost use Rattle.adsc_requests.specs.Kind.{kind_in};
ghost use Rattle.adsc_requests.specs.declared.kind.Kind.TheVariants as kinds;
ghost use Rattle.net_script.specs.declared.line.Cancel.TheVariants as cancels;
ghost use Rattle.net_script.specs.declared.line.ScriptLine.TheVariants as line_values;
ghost use Rattle.run_rules.specs.Lines.{as_centre, bring_step, flight_step};
ghost use Rattle.run_rules.specs.Stages.{Step, receives};

use crate::carried::entry_of;
use crate::course::Course;
use crate::ending::bad_line;
use crate::links::link_to;
use crate::outbox::downlink_at;
use crate::station::Role;
use crate::stations::{ask_at, cancel_at, give_role, hear_at, role_at, sent_by};
use acars_envelope::Address;
use adsc_io::NoMemory;
use adsc_requests::Message;
use net_script::{Cancel, Code};
use run_rules::End;

impl Course {
    /// The centre at this address asks by this request.
    pub(crate) fn ask(
        &mut self,
        line: u32,
        address: Address,
        request: &Message,
    ) -> Result<Option<End>, NoMemory>
        requires few { length self.old.craft.setting.addresses ≤ 64 }
        requires count { length self.old.stations.items ≡ length self.old.craft.setting.addresses }
        requires asks { IsSome (kind_in request.now) }
        ensures { (log : List Happening) → StandsBehind self.old log → IfOk result (Did false (flight_step self.old.craft.setting log line (line_values.C address request.now)) line log self.old self.new) }
    {
        match self.centre_link(line, address) {
            Ok(link) => ask_at(&mut self.stations, link, line, request),
            Err(end) => Ok(Some(end)),
        }
    }

    /// The centre at this address cancels so.
    pub(crate) fn cancel(
        &mut self,
        line: u32,
        address: Address,
        cancel: Cancel,
    ) -> Result<Option<End>, NoMemory>
        requires few { length self.old.craft.setting.addresses ≤ 64 }
        requires count { length self.old.stations.items ≡ length self.old.craft.setting.addresses }
        requires no_demand { cancel ≢ cancels.Of kinds.Demand }
        ensures { (log : List Happening) → StandsBehind self.old log → IfOk result (Did false (flight_step self.old.craft.setting log line (line_values.K address cancel)) line log self.old self.new) }
    {
        match self.centre_link(line, address) {
            Ok(link) => cancel_at(&mut self.stations, link, line, cancel),
            Err(end) => Ok(Some(end)),
        }
    }

    /// What the centre at this address sent at this place, counted from 1, is brought to the aircraft.
    pub(crate) fn bring(
        &mut self,
        line: u32,
        address: Address,
        place: u32,
    ) -> Result<Option<End>, NoMemory>
        requires few { length self.old.craft.setting.addresses ≤ 64 }
        requires count { length self.old.stations.items ≡ length self.old.craft.setting.addresses }
        requires place { 1 ≤ place }
        ensures { (log : List Happening) → StandsBehind self.old log → IfOk result (Did true (flight_step self.old.craft.setting log line (line_values.B address place)) line log self.old self.new) }
    {
        match self.centre_link(line, address) {
            Ok(link) => self.bring_from(line, link, place),
            Err(end) => Ok(Some(end)),
        }
    }

    /// What the centre of this link sent at this place, counted from 1, is brought to the aircraft.
    fn bring_from(&mut self, line: u32, link: u8, place: u32) -> Result<Option<End>, NoMemory>
        requires link { link < length self.old.craft.setting.addresses }
        requires count { length self.old.stations.items ≡ length self.old.craft.setting.addresses }
        requires place { 1 ≤ place }
        ensures { (log : List Happening) → StandsBehind self.old log → is_raw link log ≡ false
            → IfOk result (Did true (bring_step (sent_messages link log) line link place) line log self.old self.new) }
    {
        match sent_by(&self.stations, link, place) {
            Ok(sent) => {
                give_role(&mut self.stations, link, Role::Centre);
                self.join(entry_of(line, link, sent))
            }
            Err(count) => Ok(Some(bad_line(line, Code::Number, count))),
        }
    }

    /// The downlink at this place, counted from 1, of the link to this address is brought to its centre.
    pub(crate) fn receive(
        &mut self,
        line: u32,
        address: Address,
        place: u32,
    ) -> Result<Option<End>, NoMemory>
        requires few { length self.old.craft.setting.addresses ≤ 64 }
        requires count { length self.old.stations.items ≡ length self.old.craft.setting.addresses }
        requires ends { KnowsEnds self.old }
        requires place { 1 ≤ place }
        ensures { (log : List Happening) → StandsBehind self.old log → IfOk result (Did false (flight_step self.old.craft.setting log line (line_values.R address place)) line log self.old self.new) }
    {
        match self.centre_link(line, address) {
            Ok(link) => self.receive_from(line, link, place),
            Err(end) => Ok(Some(end)),
        }
    }

    /// The downlink at this place, counted from 1, of this link is brought to its centre.
    fn receive_from(&mut self, line: u32, link: u8, place: u32) -> Result<Option<End>, NoMemory>
        requires link { link < length self.old.craft.setting.addresses }
        requires count { length self.old.stations.items ≡ length self.old.craft.setting.addresses }
        requires ends { KnowsEnds self.old }
        requires place { 1 ≤ place }
        ensures { (log : List Happening) → StandsBehind self.old log → is_raw link log ≡ false
            → IfOk result (Did false (receives self.old.craft.setting link place) line log self.old self.new) }
    {
        let outbox = self.craft.outbox(link as usize);
        match downlink_at(&mut self.downlink_ends, link, outbox, place)? {
            Ok(text) => hear_at(&mut self.stations, link, text),
            Err(count) => Ok(Some(bad_line(line, Code::Number, count))),
        }
    }

    /// The link to this address, if it may be a centre's; else how the run ends.
    fn centre_link(&self, line: u32, address: Address) -> Result<u8, End>
        requires few { length self.now.craft.setting.addresses ≤ 64 }
        requires count { length self.now.stations.items ≡ length self.now.craft.setting.addresses }
        ensures within { IfOk result (λ link. link < length self.now.craft.setting.addresses) }
        ensures found { (log : List Happening) (step : ℕ → Step) → StandsBehind self.now log
            → IfOk result (λ link. (as_centre self.now.craft.setting log address step ≡ step link) × (is_raw link log ≡ false)) }
        ensures bad { (log : List Happening) (step : ℕ → Step) → StandsBehind self.now log
            → IfErr result (EndsWith line (as_centre self.now.craft.setting log address step)) }
    {
        let Some(link) = link_to(&self.craft, address) else {
            return Err(bad_line(line, Code::Address, 1));
        };
        if role_at(&self.stations, link) == Role::Raw {
            return Err(bad_line(line, Code::Role, 0));
        }
        Ok(link)
    }
}
