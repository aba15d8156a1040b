//! A centre with a clock, which tells when a periodic report is late.

ghost use Rattle.std.specs.Prelude.{◌≡◌, ◌≢◌, ◌↔◌, ◌||◌, ℕ, [], ◌∷◌, Bool, true, false, not, ◌&&◌, is_some, if◌then◌else◌, IsTrue, IsSome, IfOk, OnErr, IsErr, Some, None, Err};
ghost use Rattle.std.specs.List.{list_any};
ghost use Rattle.adsc_downlink.specs.ItemView.{item_data};
ghost use Rattle.adsc_requests.specs.Kind.{kind_in};
ghost use Rattle.adsc_requests.specs.declared.kind.Kind.TheVariants as kinds;
ghost use Rattle.adsc_requests.specs.declared.message.Message.TheVariants as message;
ghost use Rattle.centre_core.specs.Events.{Asks, Cancels, CancelsAll, HearsItem};
ghost use Rattle.centre_core.specs.Heard.{IsAnswerTo, IsMatched, OnIgnored};
ghost use Rattle.centre_core.specs.Hearing.{Hearing, SaysTo};
ghost use Rattle.centre_core.specs.Histories.{InHistory, next_number_at, row_at, row_for, was_contacted};
ghost use Rattle.centre_core.specs.Sending.{message_text};
ghost use Rattle.centre_core.specs.Tables.{mode_cancel_number, number_pending, number_to_cancel, with_number};
ghost use Rattle.ground_rules.specs.Watching.{Happens, InPast, KeepsWatch, Ticks, WatcherView, Watches, heard_in, interval_in as interval_in_row, late as late_at, rings, seconds_past as past_by, tells_position};
ghost use Rattle.centre_core.specs.Rows.{is_kind, same_kind};
ghost use Rattle.ground_rules.specs.Waiting.{heard_ends, waits};

use adsc_downlink::Item;
use adsc_requests::{Kind, Message, interval_seconds, kind_of};
use centre_core::{AskRefused, Centre, Heard, NothingShown, Sent, Shown};
use std::cmp::max;
use std::marker::Model;

/// A centre with a clock, which tells when the periodic report of its aircraft is late.
///
/// It owns its centre, and hears and sends all that the centre does. The report is late where the periodic row is confirmed, in full
/// or in part, with an interval, and more than the interval and the grace has passed since it was last quiet: since the row got its
/// state, or a report of tag 7 or 9 was heard, or the watcher was made. It takes no memory.
///
/// Contracts see its centre, the grace, its time, and since when it is quiet. That these are those of a past, of events at the centre
/// and of ticks, is said by `Watches`: a new watcher stands for no past, and each call adds what it is told. This project's profile.
#[derive(Debug, Drop)]
pub struct Watcher {
    centre: Centre,
    grace: u32,
    time: u32,
    quiet: u32,
}

impl Model for Watcher {
    ghost use Rattle.ground_rules.specs.Watching.{WatcherView};

    ghost Value = { WatcherView };

    ghost view = { λ watcher. record { centre = watcher.centre; grace = watcher.grace; time = watcher.time; quiet = watcher.quiet } };
}

impl Watcher {
    /// A watcher of this centre, made at this moment, with a grace. All times are in seconds; the grace of a watch is 0 to 3,600, and
    /// moments are 0 to 999,999,999.
    pub fn new(centre: Centre, grace: u32, t: u32) -> Watcher
        ensures made { result ≡ record { centre = centre; grace = grace; time = t; quiet = t } }
        ensures stands { InHistory centre (λ w. Watches result (record { moment = t; before = w }) []) }
    {
        Watcher {
            centre,
            grace,
            time: t,
            quiet: t,
        }
    }

    /// Its centre.
    pub fn centre(&self) -> &Centre
        ensures { result.now ≡ self.now.centre }
    {
        &self.centre
    }

    /// Asks for a contract, as [`Centre::ask`] does.
    ///
    /// # Errors
    ///
    /// `NotLoggedOn` where no contact of the aircraft was heard; else `Waiting` where a request of the kind is pending, with its number.
    /// Nothing changes then.
    pub fn ask(&mut self, request: &Message) -> Result<Sent, AskRefused>
        requires { IsSome (kind_in request.now) }
        ensures number { InHistory self.old.centre (λ w. IfOk result (λ sent. sent.n ≡ next_number_at w)) }
        ensures text { IfOk result (λ sent. sent.text.items ≡ message_text self.old.centre (with_number sent.n request.now)) }
        ensures not_logged_on { InHistory self.old.centre (λ w.
            (result ≡ Err AskRefused.NotLoggedOn) ↔ (was_contacted w ≡ false)) }
        ensures waiting { InHistory self.old.centre (λ w. (n : ℕ) → (result ≡ Err (AskRefused.Waiting n))
            ↔ (IsTrue (was_contacted w) × (number_pending (row_for request.now w) ≡ Some n))) }
        ensures refused { OnErr result (self.new ≡ self.old) }
        ensures stands { InPast self.old (λ making past. Watches self.new making (Happens (Asks request.now) ∷ past)) }
        ensures keeps { KeepsWatch self.old self.new }
    {
        let asked = self.centre.ask(request);
        self.end_quiet(asked.is_ok() & is_periodic(request));
        asked
    }

    /// Cancels the contract of a kind other than a demand, as [`Centre::cancel`] does.
    ///
    /// # Errors
    ///
    /// `NothingShown` where the row is none of pending, confirmed and partial. Nothing changes then.
    pub fn cancel(&mut self, kind: Kind) -> Result<Sent, NothingShown>
        requires { kind ≢ kinds.Demand }
        ensures number { InHistory self.old.centre (λ w. IfOk result (λ sent. number_to_cancel (row_at kind w) ≡ Some sent.n)) }
        ensures text { IfOk result (λ sent. sent.text.items ≡ message_text self.old.centre (message.Cancel sent.n)) }
        ensures nothing { InHistory self.old.centre (λ w. IsErr result ↔ (number_to_cancel (row_at kind w) ≡ None)) }
        ensures refused { OnErr result (self.new ≡ self.old) }
        ensures stands { InPast self.old (λ making past. Watches self.new making (Happens (Cancels kind) ∷ past)) }
        ensures keeps { KeepsWatch self.old self.new }
    {
        let cancelled = self.centre.cancel(kind);
        self.end_quiet(cancelled.is_ok() & is_periodic_kind(kind));
        cancelled
    }

    /// Cancels emergency mode, as [`Centre::cancel_emergency`] does. Nothing changes.
    pub fn cancel_emergency(&mut self) -> Sent
        ensures number { InHistory self.old.centre (λ w. result.n ≡ mode_cancel_number (row_at kinds.Emergency w)) }
        ensures text { result.text.items ≡ message_text self.old.centre (message.CancelEmergency result.n) }
        ensures same { self.new ≡ self.old }
    {
        self.centre.cancel_emergency()
    }

    /// Cancels all contracts and ends the connection, as [`Centre::cancel_all`] does.
    pub fn cancel_all(&mut self) -> Sent
        ensures number { result.n ≡ 0 }
        ensures text { result.text.items ≡ message_text self.old.centre message.CancelAll }
        ensures stands { InPast self.old (λ making past. Watches self.new making (Happens CancelsAll ∷ past)) }
        ensures keeps { KeepsWatch self.old self.new }
    {
        self.quiet = self.time;
        self.centre.cancel_all()
    }

    /// Hears a text, as [`Centre::hear`] does. A downlink with a report of tag 7 or 9 ends the quiet, whether or not it was asked for.
    pub fn hear(&mut self, text: &[u8]) -> Heard
        ensures said { (hearing : Hearing) × SaysTo self.old.centre text.now hearing × IsAnswerTo self.old.centre hearing result }
        ensures answer { (hearing : Hearing) → SaysTo self.old.centre text.now hearing → IsAnswerTo self.old.centre hearing result }
        ensures matched { InHistory self.old.centre (λ w. IsMatched w result) }
        ensures ignored { OnIgnored result (self.new ≡ self.old) }
        ensures stands { InPast self.old (λ making past. (hearing : Hearing) → SaysTo self.old.centre text.now hearing
            → Watches self.new making (heard_in hearing past)) }
        ensures keeps { KeepsWatch self.old self.new }
    {
        let waited = is_waiting(&self.periodic_row());
        let heard = self.centre.hear(text);
        let still_waits = is_waiting(&self.periodic_row());
        self.end_quiet(is_end_of_quiet(waited, still_waits, &heard));
        heard
    }

    /// The clock tells this moment. A moment before the greatest so far changes nothing. Answers true exactly where the report is late
    /// afterwards and wasn't before, so each silence is told once.
    pub fn tick(&mut self, t: u32) -> bool
        ensures rings { InPast self.old (λ making past. result ≡ rings making self.old.grace t past) }
        ensures stands { InPast self.old (λ making past. Watches self.new making (Ticks t ∷ past)) }
        ensures centre { self.new.centre ≡ self.old.centre }
        ensures keeps { KeepsWatch self.old self.new }
    {
        let before = self.late();
        self.time = max(self.time, t);
        let after = self.late();
        begins(&before, &after)
    }

    /// By how many seconds the report is late, which is at least one, or None where it isn't.
    pub fn late(&self) -> Option<u32>
        ensures { InPast self.now (λ making past. result ≡ late_at making self.now.grace past) }
    {
        let interval = interval_in(&self.periodic_row());
        seconds_past(interval, self.quiet, self.grace, self.time)
    }

    /// Where the centre's periodic request stands.
    fn periodic_row(&self) -> Shown
        ensures { InHistory self.now.centre (λ w. result ≡ row_at kinds.Periodic w) }
    {
        self.centre.shown(Kind::Periodic)
    }

    /// The quiet ends now, if it does.
    fn end_quiet(&mut self, ends: bool)
        ensures { self.new ≡ record self.old { quiet = if ends then self.old.time else self.old.quiet } }
    {
        if ends {
            self.quiet = self.time;
        }
    }
}

/// Whether a request asks for a periodic contract.
fn is_periodic(request: &Message) -> bool
    ensures { result ≡ is_kind kinds.Periodic (kind_in request.now) }
{
    matches!(kind_of(request), Some(Kind::Periodic))
}

/// Whether the kind is that of periodic contracts.
fn is_periodic_kind(kind: Kind) -> bool
    ensures { result ≡ same_kind kinds.Periodic kind }
{
    matches!(kind, Kind::Periodic)
}

/// Whether what was heard ends the quiet: an item that answered the periodic row, which waited before and doesn't any more, or a
/// report of tag 7 or 9.
fn is_end_of_quiet(waited: bool, still_waits: bool, heard: &Heard) -> bool
    ensures { result ≡ heard_ends waited still_waits heard.now }
{
    match heard {
        Heard::Downlink { items, .. } => {
            is_answered(waited, still_waits) | has_position(items.list.as_slice())
        }
        _ => false,
    }
}

/// Whether a row that waited doesn't wait any more.
fn is_answered(waited: bool, still_waits: bool) -> bool
    ensures { result ≡ (waited && not still_waits) }
{
    waited & !still_waits
}

/// Whether a report is late after a tick and wasn't before.
fn begins(before: &Option<u32>, after: &Option<u32>) -> bool
    ensures { result ≡ (is_some after.now && not (is_some before.now)) }
{
    after.is_some() && before.is_none()
}

/// The interval in which reports are due: that of a contract that is confirmed, in full or in part. At most 4,096 s.
fn interval_in(row: &Shown) -> Option<u32>
    ensures { result ≡ interval_in_row row.now }
{
    match row {
        Shown::Confirmed(Message::Periodic { interval, .. })
        | Shown::Partial(Message::Periodic { interval, .. }) => {
            interval.map(|octet| interval_seconds(octet))
        }
        _ => None,
    }
}

/// By how much the time is past the moment at which a report is due, with its grace.
fn seconds_past(interval: Option<u32>, quiet: u32, grace: u32, now: u32) -> Option<u32>
    ensures { result ≡ past_by interval quiet grace now }
{
    let due = u64::from(quiet) + u64::from(interval?) + u64::from(grace);
    if due < u64::from(now) {
        Some((u64::from(now) - due) as u32)
    } else {
        None
    }
}

/// Whether the row waits for an answer: its request or its cancel was sent, and wasn't answered yet.
fn is_waiting(row: &Shown) -> bool
    ensures { result ≡ waits row.now }
{
    matches!(row, Shown::Pending(_) | Shown::Cancelling(_))
}

/// Whether one of the items is a report of tag 7 or 9.
fn has_position(items: &[Item]) -> bool
    ensures { result ≡ list_any (λ item. tells_position (HearsItem (item_data item))) items.now }
{
    items.iter().any(|item| is_position(item))
}

/// Whether the item is a report of tag 7 or 9.
fn is_position(item: &Item) -> bool
    ensures { result ≡ tells_position (HearsItem (item_data item.now)) }
{
    match item {
        Item::Report(report) => report.tag == 7 || report.tag == 9,
        _ => false,
    }
}
