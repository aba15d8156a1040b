//! A centre's table.

ghost use Rattle.std.specs.Prelude.{◌≡◌, ◌≤◌, true, false, [], IsSome, find, length, map};
ghost use Rattle.adsc_downlink.specs.ItemView.{item_data};
ghost use Rattle.adsc_requests.specs.Kind.{kind_in};
ghost use Rattle.centre_core.specs.Events.{Asks, Cancels, CancelsAll, HearsContact, HearsItem};
ghost use Rattle.centre_core.specs.Histories.{table_at};
ghost use Rattle.centre_core.specs.Steps.{number_after as next_after, table_after, table_after_items, taken_count, with_row};
ghost use Rattle.centre_core.specs.Tables.{request_or_refusal, is_number, is_taken, kinds, number_cancelling, number_pending, number_to_cancel, row_in, taker};

use crate::answer::answer_in;
use crate::number::{number_after, number_of, with_number};
use crate::refusal::AskRefused;
use crate::shown::Shown;
use adsc_downlink::Item;
use adsc_requests::{Kind, Message, kind_of};

/// What a centre keeps of its events: whether its aircraft is logged on, the number of its last
/// request, and the row of each kind.
#[derive(Clone, Copy, Debug, PartialEq, Eq)]
pub struct CentreTable {
    /// Whether a contact of the aircraft was heard.
    pub logged_on: bool,
    /// The number of the last request that was sent, 1 to 255, or 0.
    pub last: u8,
    /// The row of demands.
    pub demand: Shown,
    /// The row of periodic contracts.
    pub periodic: Shown,
    /// The row of event contracts.
    pub event: Shown,
    /// The row of emergency contracts.
    pub emergency: Shown,
}

/// The kinds, in the order in which their rows take an answer.
const KINDS: [Kind; 4] = [Kind::Demand, Kind::Periodic, Kind::Event, Kind::Emergency];

impl CentreTable {
    /// The table before any event.
    pub(crate) fn new() -> CentreTable
        ensures { result ≡ table_at [] }
    {
        CentreTable {
            logged_on: false,
            last: 0,
            demand: Shown::Nothing,
            periodic: Shown::Nothing,
            event: Shown::Nothing,
            emergency: Shown::Nothing,
        }
    }

    /// The row of a kind.
    pub(crate) fn row(&self, kind: Kind) -> Shown
        ensures { result ≡ row_in kind self.now }
    {
        match kind {
            Kind::Demand => self.demand,
            Kind::Periodic => self.periodic,
            Kind::Event => self.event,
            Kind::Emergency => self.emergency,
        }
    }

    /// Replaces the row of a kind.
    fn set_row(&mut self, kind: Kind, row: Shown)
        ensures { self.new ≡ with_row kind row self.old }
    {
        match kind {
            Kind::Demand => self.demand = row,
            Kind::Periodic => self.periodic = row,
            Kind::Event => self.event = row,
            Kind::Emergency => self.emergency = row,
        }
    }

    /// The request that is to be sent, under the next number: its row is pending from now on.
    pub(crate) fn ask(&mut self, request: &Message) -> Result<Message, AskRefused>
        requires { IsSome (kind_in request.now) }
        ensures answer { result
            ≡ request_or_refusal request.now (next_after self.old.last) self.old }
        ensures table { self.new ≡ table_after (Asks request.now) self.old }
    {
        let Some(kind) = kind_of(request) else {
            unreachable!()
        };
        if !self.logged_on {
            return Err(AskRefused::NotLoggedOn);
        }
        if let Some(n) = self.row(kind).number_pending() {
            return Err(AskRefused::Waiting { n });
        }
        let n = number_after(self.last);
        let numbered = with_number(n, request);
        self.set_row(kind, Shown::Pending(numbered));
        self.last = n;
        Ok(numbered)
    }

    /// The number of the contract whose cancel is to be sent: its row is cancelling from now on.
    /// None where there is nothing to cancel.
    pub(crate) fn cancel(&mut self, kind: Kind) -> Option<u8>
        ensures answer { result ≡ number_to_cancel (row_in kind self.old) }
        ensures table { self.new ≡ table_after (Cancels kind) self.old }
    {
        let request = self.row(kind).cancellable()?;
        self.set_row(kind, Shown::Cancelling(request));
        Some(number_of(&request))
    }

    /// All rows are empty from now on.
    pub(crate) fn cancel_all(&mut self)
        ensures { self.new ≡ table_after CancelsAll self.old }
    {
        *self = CentreTable {
            logged_on: self.logged_on,
            last: self.last,
            ..CentreTable::new()
        };
    }

    /// The aircraft is logged on from now on.
    pub(crate) fn log_on(&mut self)
        ensures { self.new ≡ table_after HearsContact self.old }
    {
        self.logged_on = true;
    }

    /// Hears an item: a row takes the answer that it is, or it changes nothing. Answers whether a
    /// row took it.
    pub(crate) fn hear(&mut self, item: &Item) -> bool
        ensures taken { result ≡ is_taken (item_data item.now) self.old }
        ensures table { self.new ≡ table_after (HearsItem (item_data item.now)) self.old }
    {
        let Some(answer) = answer_in(item) else {
            return false;
        };
        let Some(kind) = self.taker(answer.number) else {
            return false;
        };
        self.set_row(kind, self.row(kind).answered(answer.kind));
        true
    }

    /// Hears items one by one, and counts those that a row took.
    pub(crate) fn hear_all(&mut self, items: &[Item]) -> u8
        requires { length items.now ≤ 8 }
        ensures matched { result ≡ taken_count (map item_data items.now) self.old }
        ensures table { self.new ≡ table_after_items (map item_data items.now) self.old }
    {
        let mut matched = 0;
        for item in items {
            matched += u8::from(self.hear(item));
        }
        matched
    }

    /// The row that takes an answer of this number, if one does.
    fn taker(&self, n: u8) -> Option<Kind>
        ensures { result ≡ taker n self.now }
    {
        self.first_pending(n).or(self.first_cancelling(n))
    }

    /// The first row that is pending under this number.
    fn first_pending(&self, n: u8) -> Option<Kind>
        ensures { result
            ≡ find (λ kind. is_number n (number_pending (row_in kind self.now))) kinds }
    {
        KINDS
            .iter()
            .copied()
            .find(|kind| self.row(*kind).is_pending_under(n))
    }

    /// The first row that is cancelling under this number.
    fn first_cancelling(&self, n: u8) -> Option<Kind>
        ensures { result
            ≡ find (λ kind. is_number n (number_cancelling (row_in kind self.now))) kinds }
    {
        KINDS
            .iter()
            .copied()
            .find(|kind| self.row(*kind).is_cancelling_under(n))
    }
}
