//! A ground centre, and the calls that change it.

ghost use Rattle.std.specs.Prelude.{◌≡◌, ◌≢◌, ◌↔◌, ℕ, [], ◌∷◌, false, IsTrue, IsSome, IfOk, OnErr, IsErr, Some, None, Err};
ghost use Rattle.adsc_requests.specs.Contents.{number_of as number_in};
ghost use Rattle.adsc_requests.specs.Kind.{kind_in};
ghost use Rattle.adsc_requests.specs.declared.kind.Kind.TheVariants as kinds;
ghost use Rattle.adsc_requests.specs.declared.message.Message.TheVariants as message;
ghost use Rattle.centre_core.specs.Events.{Asks, Cancels, CancelsAll};
ghost use Rattle.centre_core.specs.Heard.{IsAnswerTo, IsMatched, OnIgnored, with_heard};
ghost use Rattle.centre_core.specs.Hearing.{Hearing, SaysTo};
ghost use Rattle.centre_core.specs.Histories.{InHistory, StandsFor, next_number_at, row_at, row_for, was_contacted};
ghost use Rattle.centre_core.specs.Sending.{message_text};
ghost use Rattle.centre_core.specs.Tables.{mode_cancel_number, number_pending, number_to_cancel, row_in, with_number};
ghost use Rattle.centre_core.specs.View.{KeepsNames};

use crate::greeting::greeting_of;
use crate::heard::Heard;
use crate::number::number_of;
use crate::reading::{Reading, read_text};
use crate::refusal::{AskRefused, NothingShown};
use crate::sending::text_of;
use crate::sent::Sent;
use crate::shown::Shown;
use crate::table::CentreTable;
use acars_envelope::{Address, Registration};
use adsc_requests::{Kind, Message};
use std::marker::Model;

/// A ground centre, which has contracts with one aircraft (RTCA DO-258A / EUROCAE ED-100A).
///
/// Contracts see its address, the registration of its aircraft, and its table. That the table is
/// the one of a history, the events so far, is said by `StandsFor`: a new centre stands for the
/// empty history, and each call adds its events.
#[derive(Debug, Drop)]
pub struct Centre {
    address: Address,
    registration: Registration,
    table: CentreTable,
}

impl Model for Centre {
    ghost use Rattle.centre_core.specs.View.{CentreView};

    ghost Value = { CentreView };

    ghost view = { λ centre. record {
      address = centre.address;
      registration = centre.registration;
      table = centre.table;
    } };
}

impl Centre {
    /// A centre at this address that has heard and asked nothing, for the aircraft of this
    /// registration.
    pub fn new(address: Address, registration: Registration) -> Centre
        ensures address { result.address ≡ address }
        ensures registration { result.registration ≡ registration }
        ensures stands { StandsFor result [] }
    {
        Centre {
            address,
            registration,
            table: CentreTable::new(),
        }
    }

    /// Asks for a contract: the text that carries the request, whose number is replaced by the next
    /// one. The row of its kind is then pending.
    ///
    /// The k-th request that is sent has number ((k - 1) mod 255) + 1.
    ///
    /// # Errors
    ///
    /// `NotLoggedOn` where no contact of the aircraft was heard; else `Waiting` where a request of
    /// the kind is pending, with its number. Nothing changes then.
    pub fn ask(&mut self, request: &Message) -> Result<Sent, AskRefused>
        requires { IsSome (kind_in request.now) }
        ensures number { InHistory self.old (λ w. IfOk result (λ sent. sent.n ≡ next_number_at w)) }
        ensures text { IfOk result (λ sent.
            sent.text.items ≡ message_text self.old (with_number sent.n request.now)) }

        // When a request is refused, both ways, and what a refusal leaves.
        ensures not_logged_on { InHistory self.old (λ w.
            (result ≡ Err AskRefused.NotLoggedOn) ↔ (was_contacted w ≡ false)) }
        ensures waiting { InHistory self.old (λ w. (n : ℕ) → (result ≡ Err (AskRefused.Waiting n))
            ↔ (IsTrue (was_contacted w) × (number_pending (row_for request.now w) ≡ Some n))) }
        ensures refused { OnErr result (self.new ≡ self.old) }

        // What the centre stands for.
        ensures stands { InHistory self.old (λ w. StandsFor self.new (Asks request.now ∷ w)) }
        ensures names { KeepsNames self.old self.new }
    {
        let request = self.table.ask(request)?;
        Ok(self.sent(request))
    }

    /// Cancels the contract of a kind: the text that carries the cancel of its number. The row of
    /// the kind is then cancelling. A demand can't be cancelled.
    ///
    /// # Errors
    ///
    /// `NothingShown` where the row is none of pending, confirmed and partial. Nothing changes
    /// then.
    pub fn cancel(&mut self, kind: Kind) -> Result<Sent, NothingShown>
        requires { kind ≢ kinds.Demand }
        ensures number { InHistory self.old (λ w.
            IfOk result (λ sent. number_to_cancel (row_at kind w) ≡ Some sent.n)) }
        ensures text { IfOk result (λ sent.
            sent.text.items ≡ message_text self.old (message.Cancel sent.n)) }
        ensures nothing { InHistory self.old (λ w.
            IsErr result ↔ (number_to_cancel (row_at kind w) ≡ None)) }
        ensures refused { OnErr result (self.new ≡ self.old) }
        ensures stands { InHistory self.old (λ w. StandsFor self.new (Cancels kind ∷ w)) }
        ensures names { KeepsNames self.old self.new }
    {
        let Some(n) = self.table.cancel(kind) else {
            return Err(NothingShown);
        };
        Ok(self.sent(Message::Cancel { n }))
    }

    /// Cancels emergency mode: the text that carries the cancel, with the number of the emergency
    /// contract where its row is confirmed or partial, else with 0. No row changes.
    pub fn cancel_emergency(&mut self) -> Sent
        ensures number { InHistory self.old (λ w.
            result.n ≡ mode_cancel_number (row_at kinds.Emergency w)) }
        ensures text { result.text.items
            ≡ message_text self.old (message.CancelEmergency result.n) }
        ensures same { self.new ≡ self.old }
    {
        self.sent(Message::CancelEmergency {
            n: self.table.emergency.mode_cancel_number(),
        })
    }

    /// Cancels all contracts and ends the connection: the text that carries the cancel, which has
    /// no number. All rows show nothing then.
    pub fn cancel_all(&mut self) -> Sent
        ensures number { result.n ≡ 0 }
        ensures text { result.text.items ≡ message_text self.old message.CancelAll }
        ensures stands { InHistory self.old (λ w. StandsFor self.new (CancelsAll ∷ w)) }
        ensures names { KeepsNames self.old self.new }
    {
        self.table.cancel_all();
        self.sent(Message::CancelAll)
    }

    /// Hears a text, from wherever it comes, and says what it was. The rules are tried in this
    /// order:
    ///
    /// 1. `Envelope`: the text is no envelope's, by [`acars_envelope::unseal`];
    /// 2. `OtherAddress`: it bears another ground facility's address;
    /// 3. `Afn`: it is an AFN text and no contact, by [`afn_logon::read_contact`];
    /// 4. `OtherRegistration`: it bears another aircraft's registration;
    /// 5. `Bits`: its payload is no downlink, by [`adsc_downlink::decode_downlink`].
    ///
    /// By the first that applies the text is `Ignored`, and nothing changes. Else a contact logs
    /// the aircraft on, and is answered by the text that accepts it. The items of a downlink are
    /// taken one by one: an acknowledgement, a noncompliance or a negative acknowledgement of
    /// number n makes the first row that is pending under n confirmed, partial or refused; where
    /// there is none, it empties the first row that is cancelling under n. `matched` counts the
    /// items that changed a row.
    pub fn hear(&mut self, text: &[u8]) -> Heard
        // What the text says, and that this is the answer to it.
        ensures said { (hearing : Hearing) × SaysTo self.old text.now hearing
            × IsAnswerTo self.old hearing result }
        ensures answer { (hearing : Hearing) → SaysTo self.old text.now hearing
            → IsAnswerTo self.old hearing result }
        ensures matched { InHistory self.old (λ w. IsMatched w result) }
        ensures ignored { OnIgnored result (self.new ≡ self.old) }

        // What the centre stands for.
        ensures stands { InHistory self.old (λ w. (hearing : Hearing) →
            SaysTo self.old text.now hearing → StandsFor self.new (with_heard hearing w)) }
        ensures names { KeepsNames self.old self.new }
    {
        match read_text(self.address, self.registration, text) {
            Reading::Ignored(why) => Heard::Ignored(why),
            Reading::Contact(contact) => {
                self.table.log_on();
                Heard::Contact(Sent {
                    n: 0,
                    text: greeting_of(self.address, &contact),
                })
            }
            Reading::Downlink(items) => {
                let matched = self.table.hear_all(items.list.as_slice());
                Heard::Downlink { items, matched }
            }
        }
    }

    /// Where the centre's request of a kind stands.
    pub fn shown(&self, kind: Kind) -> Shown
        ensures row { result ≡ row_in kind self.now.table }
        ensures history { InHistory self.now (λ w. result ≡ row_at kind w) }
    {
        self.table.row(kind)
    }

    /// The text that carries a message, with its number.
    fn sent(&self, message: Message) -> Sent
        ensures number { result.n ≡ number_in message }
        ensures text { result.text.items ≡ message_text self.now message }
    {
        Sent {
            n: number_of(&message),
            text: text_of(self.address, self.registration, message),
        }
    }
}
