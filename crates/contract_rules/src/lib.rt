//! The contract rules of ADS-C as definitions, with no code that runs.
//!
//! For every history of acts (messages and malformed payloads of ground links, samples, ticks and the crew's emergency
//! switch) the definitions of `specs/` say which links are live, which contract is in force, what the verdict on a
//! message is, and which items are due on each link. The messages are those of RTCA DO-258A / EUROCAE ED-100A, the
//! kinds of contracts and reports those of ICAO Doc 10037; all rules are this project's profile. The crates of due rules, of the
//! table of contracts, of the aircraft and of the runs stand above: their contracts cite these definitions.
//!
//! Begin with `specs/Messages.antt` and `specs/Acts.antt`, the data; then `specs/LookingBack.antt`, the words; then
//! live links, contracts in force, reports in a series, emergency mode, verdicts, periodic reports, events, and what is
//! due. The functions of this crate have empty bodies: the contract of each is a law of the definitions, and
//! `specs/Laws.antt`, `specs/Retellings.antt` and `specs/Histories.antt` have the statements.
//! `proofs/Steps.antt`, `proofs/LinkSteps.antt` and `proofs/Independence.antt` have the lemmas for code above that keeps
//! a link's state: each says how a definition after one more act follows from those before it.
#![tactic(auto)]

ghost use Rattle.contract_rules.specs.Histories.Links.{SixLinks, SixHighLinks, BesideKeptLink, KeptLinkGone, TwoLinks, NewSession, CancelAllAndRequest, NotLive, LatestSample};
ghost use Rattle.contract_rules.specs.Histories.Contracts.{RepeatAndNumberInForce, RepeatsOfEachKind, NumberOfAnother, CancelOfEachKind, Replacement, DemandNeverInForce, IntentAskedFor, CancelOfUndefined, TwoMessages, MalformedPayloads};
ghost use Rattle.contract_rules.specs.Histories.Reports.{PeriodAndModuli, NumbersInSeries, GroupsOfDemand, GreatestTick, Intervals};
ghost use Rattle.contract_rules.specs.Histories.Events.{LateralEventOnce, LateralEventAgain, DeviationToLeft, ClimbTooFast, DescentTooFast, AltitudeEventAndMalformed, AboveCeiling, AltitudeEventOnce, AltitudeEventAgain, WaypointChanges, FourEvents, NewEventContract};
ghost use Rattle.contract_rules.specs.Histories.Emergency.{EmergencyMode, CancelledEmergencyMode, SuspendedReports, EmergencyContract, CancelledEmergencyContract, DefaultInterval, RequestBeforeEmergency, SwitchedOnAgain, ModeOfNewSession};
ghost use Rattle.contract_rules.specs.Laws.{SameMessageIsEquality, MalformedChangesNoContract, MalformedChangesNothing, UnheardChangesNothing, AtMostFiveLive, LinksAreIndependent, FiveLinksAreIndependent};
ghost use Rattle.contract_rules.specs.Retellings.{LiveSinceAdmission, InForceSinceAcceptance, InForceSplits, PeriodicReportsSinceAcceptance, SamplesSinceAcceptance, EmergencyOffAtCrewOff, AnchorIsLatest};

/// The worked histories of links: admission, sessions, acts that are not heard, by computation.
pub fn histories_of_links()
    ensures six_links { SixLinks }
    ensures six_high_links { SixHighLinks }
    ensures beside_kept_link { BesideKeptLink }
    ensures kept_link_gone { KeptLinkGone }
    ensures two_links { TwoLinks }
    ensures new_session { NewSession }
    ensures cancel_all_and_request { CancelAllAndRequest }
    ensures not_live { NotLive }
    ensures latest_sample { LatestSample }
{}

/// The worked histories of contracts: verdicts, repeats, replacement, cancels and answers, by computation.
pub fn histories_of_contracts()
    ensures repeat_and_number_in_force { RepeatAndNumberInForce }
    ensures repeats_of_each_kind { RepeatsOfEachKind }
    ensures number_of_another { NumberOfAnother }
    ensures cancel_of_each_kind { CancelOfEachKind }
    ensures replacement { Replacement }
    ensures demand_never_in_force { DemandNeverInForce }
    ensures intent_asked_for { IntentAskedFor }
    ensures cancel_of_undefined { CancelOfUndefined }
    ensures two_messages { TwoMessages }
    ensures malformed_payloads { MalformedPayloads }
{}

/// The worked histories of basic reports: grids, numbers and groups, by computation.
pub fn histories_of_reports()
    ensures period_and_moduli { PeriodAndModuli }
    ensures numbers_in_series { NumbersInSeries }
    ensures groups_of_demand { GroupsOfDemand }
    ensures greatest_tick { GreatestTick }
    ensures intervals { Intervals }
{}

/// The worked histories of events in both profiles, by computation.
pub fn histories_of_events()
    ensures lateral_event_once { LateralEventOnce }
    ensures lateral_event_again { LateralEventAgain }
    ensures deviation_to_left { DeviationToLeft }
    ensures climb_too_fast { ClimbTooFast }
    ensures descent_too_fast { DescentTooFast }
    ensures altitude_event_and_malformed { AltitudeEventAndMalformed }
    ensures above_ceiling { AboveCeiling }
    ensures altitude_event_once { AltitudeEventOnce }
    ensures altitude_event_again { AltitudeEventAgain }
    ensures waypoint_changes { WaypointChanges }
    ensures four_events { FourEvents }
    ensures new_event_contract { NewEventContract }
{}

/// The worked histories of emergency mode, by computation.
pub fn histories_of_emergency()
    ensures emergency_mode { EmergencyMode }
    ensures cancelled_emergency_mode { CancelledEmergencyMode }
    ensures suspended_reports { SuspendedReports }
    ensures emergency_contract { EmergencyContract }
    ensures cancelled_emergency_contract { CancelledEmergencyContract }
    ensures default_interval { DefaultInterval }
    ensures request_before_emergency { RequestBeforeEmergency }
    ensures switched_on_again { SwitchedOnAgain }
    ensures mode_of_new_session { ModeOfNewSession }
{}

/// The equality of messages that the rules compute with is equality: a repeat is the same message.
pub fn repeats_are_equal_messages()
    ensures { SameMessageIsEquality }
{}

/// A malformed payload changes no contract: after it the live links and the contracts in force are those before it, and so
/// are emergency mode and its anchor, the numbers of the next reports, the samples since acceptance, and time, on each link.
pub fn malformed_changes_no_contract()
    ensures contracts { MalformedChangesNoContract }
    ensures all_else { MalformedChangesNothing }
{}

/// An act of a link that is neither live nor admitted by it, a message or a malformed payload, is not answered and changes
/// nothing on any link.
pub fn unheard_changes_nothing()
    ensures { UnheardChangesNothing }
{}

/// At most five links are live after any acts, of links of any number, each once in the list of them, with and without a
/// kept connection.
pub fn at_most_five_live()
    ensures { AtMostFiveLive }
{}

/// Links are independent but for admissions: what is due on a link is determined by the profile, its own acts, the flight's
/// acts and which requests admit it, whatever connection is kept; with at most five links by the profile and its own and the
/// flight's acts alone.
pub fn links_are_independent()
    ensures but_for_admissions { LinksAreIndependent }
    ensures of_at_most_five { FiveLinksAreIndependent }
{}

/// A link is live exactly where an act admitted it and no cancel-all of the link came after.
pub fn live_since_admission()
    ensures { LiveSinceAdmission }
{}

/// A contract is in force exactly where a request of its kind made it in the session, no later one replaced it, and no
/// accepted cancel of its number came after. What its link heard splits there.
pub fn in_force_since_acceptance()
    ensures exactly { InForceSinceAcceptance }
    ensures splits { InForceSplits }
{}

/// A periodic report's number in its series is that of the reports due by its contract before it, and the samples that decide
/// whether a limit of an event contract is spent are those after its acceptance.
pub fn series_since_acceptance()
    ensures reports { PeriodicReportsSinceAcceptance }
    ensures samples { SamplesSinceAcceptance }
{}

/// The anchor of a live link's emergency reports is the latest of the four acts that the rule names: the last crew act, the
/// admission, the acceptance of the emergency contract in force, and an accepted cancel of an emergency contract in the session;
/// and an emergency report's number is that of the reports due at the anchor or after it.
pub fn anchor_is_latest()
    ensures { AnchorIsLatest }
{}

/// Emergency-off falls due on a link exactly at a crew act off, where the link is in emergency mode.
pub fn emergency_off_at_crew_off()
    ensures { EmergencyOffAtCrewOff }
{}
