//! The ground address of a link: how it is used, its centre, and what the centre sent.
ghost use Rattle.std.specs.Prelude.{◌≡◌, ◌≢◌, ◌-◌, ◌≤◌, ℕ, List, [], ◌∷◌, ◌++◌, false, length, IsSome, IfOk, IfErr, OnOk, None, Some, slice_get};
ghost use Rattle.adsc_requests.specs.Kind.{kind_in};
ghost use Rattle.adsc_requests.specs.declared.kind.Kind.TheVariants as kinds;
ghost use Rattle.aircraft_core.specs.Setting.{Setting, address_of};
ghost use Rattle.centre_core.specs.Hearing.{Hearing, Says};
ghost use Rattle.net_script.specs.declared.line.Cancel.TheVariants as cancels;
ghost use Rattle.run_rules.specs.Happenings.{Happening, Heard as WasHeard, history, is_raw};
ghost use Rattle.run_rules.specs.Lines.{ask_step, cancel_step};
ghost use Rattle.adsc_run.specs.Stations.{StationDid, StationStands, answers_to};
ghost use Rattle.adsc_run.specs.declared.carried.SentText.TheVariants as texts;
ghost use Rattle.adsc_run.specs.declared.station.Role.TheVariants as roles;

use crate::carried::SentText;
use crate::ending::bad_line;
use acars_envelope::{Address, Registration};
use adsc_io::NoMemory;
use adsc_requests::{Kind, Message};
use centre_core::{AskRefused, Centre, Heard, NothingShown, with_number};
use net_script::{Cancel, Code};
use run_rules::End;
use std::alloc::Global;

/// How the address of a link is used. This project's profile.
#[derive(Clone, Copy, Debug, PartialEq, Eq)]
pub(crate) enum Role {
    /// No line has used it yet.
    Unused,
    /// Texts from it were taken.
    Raw,
    /// It is a centre's.
    Centre,
}

/// The ground address of a link, how it is used, its centre, and what the centre sent, the first first.
#[derive(Drop)]
pub(crate) struct Station {
    pub(crate) address: Address,
    pub(crate) role: Role,
    pub(crate) centre: Centre,
    pub(crate) sent: Vec<SentText>,
}

impl Station {
    /// The station at this address, unused, for the aircraft of this registration.
    pub(crate) fn new(alloc: Global, address: Address, registration: Registration) -> Station
        ensures { (setting : Setting) (link : ℕ) → address ≡ address_of setting link → registration ≡ setting.registration
            → StationStands setting link [] result }
    {
        Station {
            address,
            role: Role::Unused,
            centre: Centre::new(address, registration),
            sent: Vec::new(alloc),
        }
    }

    /// The centre asks by this request at the line of this number; answers how the run ends, if the centre refuses.
    pub(crate) fn ask(&mut self, line: u32, request: &Message) -> Result<Option<End>, NoMemory>
        requires { IsSome (kind_in request.now) }
        ensures { (setting : Setting) (link : ℕ) (log : List Happening) → StationStands setting link log self.old → is_raw link log ≡ false
            → IfOk result (StationDid (ask_step (history link log) line link request.now) line setting link log self.new) }
    {
        match self.centre.ask(request) {
            Ok(sent) => self.send(with_number(sent.n, request)),
            Err(AskRefused::NotLoggedOn) => Ok(Some(bad_line(line, Code::Logon, 0))),
            Err(AskRefused::Waiting { n }) => Ok(Some(bad_line(line, Code::Waiting, u32::from(n)))),
        }
    }

    /// The centre cancels so at the line of this number; answers how the run ends, if there is nothing to cancel.
    pub(crate) fn cancel(&mut self, line: u32, cancel: Cancel) -> Result<Option<End>, NoMemory>
        requires { cancel ≢ cancels.Of kinds.Demand }
        ensures { (setting : Setting) (link : ℕ) (log : List Happening) → StationStands setting link log self.old → is_raw link log ≡ false
            → IfOk result (StationDid (cancel_step (history link log) line link cancel) line setting link log self.new) }
    {
        match cancel {
            Cancel::Of(kind) => self.cancel_kind(line, kind),
            Cancel::EmergencyMode => {
                let n = self.centre.cancel_emergency().n;
                self.send(Message::CancelEmergency { n })
            }
            Cancel::All => {
                self.centre.cancel_all();
                self.send(Message::CancelAll)
            }
        }
    }

    /// The centre cancels its contract of this kind at the line of this number, if it has one.
    fn cancel_kind(&mut self, line: u32, kind: Kind) -> Result<Option<End>, NoMemory>
        requires { kind ≢ kinds.Demand }
        ensures { (setting : Setting) (link : ℕ) (log : List Happening) → StationStands setting link log self.old → is_raw link log ≡ false
            → IfOk result (StationDid (cancel_step (history link log) line link (cancels.Of kind)) line setting link log self.new) }
    {
        match self.centre.cancel(kind) {
            Ok(sent) => self.send(Message::Cancel { n: sent.n }),
            Err(NothingShown) => Ok(Some(bad_line(line, Code::Nothing, 0))),
        }
    }

    /// The centre hears a text.
    pub(crate) fn hear(&mut self, text: &[u8]) -> Result<Option<End>, NoMemory>
        ensures end { IfOk result (λ end. end ≡ None) }
        ensures stands { OnOk result ((setting : Setting) (link : ℕ) (log : List Happening) (line place : ℕ) → StationStands setting link log self.old
            → is_raw link log ≡ false → (hearing : Hearing) × Says (address_of setting link) setting.registration text.now hearing
            × StationStands setting link (WasHeard line link place hearing ∷ log) self.new) }
    {
        self.role = Role::Centre;
        let heard = self.centre.hear(text);
        self.answer(&heard)
    }

    /// The centre answers what it heard, if it is a contact.
    fn answer(&mut self, heard: &Heard) -> Result<Option<End>, NoMemory>
        ensures end { IfOk result (λ end. end ≡ None) }
        ensures role { self.new.role ≡ self.old.role }
        ensures address { self.new.address ≡ self.old.address }
        ensures centre { self.new.centre ≡ self.old.centre }
        ensures sent { OnOk result (self.new.sent.items ≡ self.old.sent.items ++ answers_to heard.now) }
    {
        if let Heard::Contact(_) = heard {
            self.sent.push(SentText::Answer)?;
        }
        Ok(None)
    }

    /// The centre sends this message.
    fn send(&mut self, message: Message) -> Result<Option<End>, NoMemory>
        ensures end { IfOk result (λ end. end ≡ None) }
        ensures role { self.new.role ≡ roles.Centre }
        ensures address { self.new.address ≡ self.old.address }
        ensures centre { self.new.centre ≡ self.old.centre }
        ensures sent { OnOk result (self.new.sent.items ≡ self.old.sent.items ++ texts.Message message ∷ []) }
    {
        self.role = Role::Centre;
        self.sent.push(SentText::Message(message))?;
        Ok(None)
    }

    /// What the centre sent at this place, counted from 1; or how much it sent.
    pub(crate) fn sent_at(&self, place: u32) -> Result<SentText, u32>
        requires { 1 ≤ place }
        ensures there { IfOk result (λ sent. slice_get self.now.sent.items (place - 1) ≡ Some sent) }
        ensures none { IfErr result (λ count. (slice_get self.now.sent.items (place - 1) ≡ None) × (count ≡ length self.now.sent.items)) }
    {
        match self.sent.get(place as usize - 1) {
            Some(sent) => Ok(*sent),
            None => Err(self.sent.len() as u32),
        }
    }
}
