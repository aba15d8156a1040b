//! The contracts of an aircraft's links: what is due at each act.

ghost use Rattle.std.specs.Prelude.{◌≡◌, ℕ, ◌+◌, ◌<◌, ◌≤◌, List, [], ◌∷◌, ◌++◌, All, map};
ghost use Rattle.std.specs.Option.{ForSome};
ghost use Rattle.arrayvec.specs.ArrayVec.{array_vec_len};
ghost use Rattle.contract_rules.specs.Acts.{Act as RulesAct, later_of};
ghost use Rattle.contract_rules.specs.Configuration.{Configuration as RulesConfiguration};
ghost use Rattle.contract_rules.specs.LiveLinks.{is_live, time_after};
ghost use Rattle.contract_rules.specs.Verdicts.{past_of};
ghost use Rattle.due_event.specs.RuleTerms.{rules_profile};
ghost use Rattle.contract_table.specs.Acts.{IsTaken, last_moment, rules_act};
ghost use Rattle.contract_table.specs.Dues.{dues_in, dues_of};
ghost use Rattle.contract_table.specs.NextTable.{connections_next, crew_after, table_dues};
ghost use Rattle.contract_table.specs.Ordered.{IsOrdered};
ghost use Rattle.contract_table.specs.Seen.{connection_seen, table_seen};
ghost use Rattle.contract_table.specs.Sound.{IsSound, IsSoundTable};
ghost use Rattle.contract_table.specs.Tables.{StandsFor, TableState};

use crate::act::Act;
use crate::configuration::Configuration;
use crate::connections::{Connections, answer_malformed, hear, is_live};
use crate::due::Dues;
use crate::flight::fly_all;
use arrayvec::ArrayVec;
use due_event::Profile;
use std::marker::Model;

/// The contracts of an aircraft with a number of links, as they are after the acts that the table was told.
///
/// At most five links are live at once; the table keeps nothing of the others, and no past act or sample. A step costs
/// by the live links.
#[derive(Debug, Drop)]
pub struct Table {
    links: u8,
    configuration: Configuration,
    time: u32,
    crew: bool,
    connections: Connections,
}

/// A table takes at most 2 kB (it is laid out in 664).
const _: () = prove!(size_of::<Table>() <= 2048);

impl Model for Table {
    ghost Value = { TableState };

    ghost view = { λ t. table_seen t.links t.configuration t.time t.crew t.connections.items };

    ghost invariant = { λ t.
        IsSoundTable (table_seen t.links t.configuration t.time t.crew t.connections.items) t.connections.items };
}

impl Table {
    /// The table of an aircraft that was told nothing. It has this many links, 1 to 64, and reports events by this
    /// profile; one of the five connections may be kept for one of its links.
    pub fn new(links: u8, profile: Profile, reserved: Option<u8>) -> Table
        requires links { (1 ≤ links) × (links ≤ 64) }
        requires reserved { ForSome reserved (λ kept. kept < links) }
        ensures configuration { result.configuration
            ≡ record { profile = rules_profile profile; kept = reserved } }
        ensures links { result.links ≡ links }
        ensures stands { StandsFor result [] }
    {
        Table {
            links,
            configuration: Configuration { profile, reserved },
            time: 0,
            crew: false,
            connections: ArrayVec::new(),
        }
    }

    /// Takes one act, and answers what is due at it on every link, by rising link. Nothing is refused.
    ///
    /// A link must be one of the table's, and a tick at most 999,999,999 s.
    pub fn step(&mut self, act: &Act) -> Dues
        requires { IsTaken self.old.links act.now }
        ensures configuration { self.new.configuration ≡ self.old.configuration }
        ensures links { self.new.links ≡ self.old.links }
        ensures due { (acts : List RulesAct) → StandsFor self.old acts → dues_in result
            ≡ dues_of self.old.configuration self.old.links (past_of self.old.configuration acts) (rules_act act.now) }
        ensures stands { (acts : List RulesAct)
            → StandsFor self.old acts → StandsFor self.new (rules_act act.now ∷ acts) }
    {
        let (time, crew) = (self.time, self.crew);
        let later = later_of(time, act);
        self.time = later;
        self.crew = crew_after(crew, act);
        let mut dues = Dues::none();
        take(
            &mut self.connections,
            &self.configuration,
            crew,
            time,
            later,
            act,
            &mut dues,
        );
        dues
    }

    /// The time in seconds: the greatest tick so far, or 0.
    pub fn time(&self) -> u32
        ensures time { (acts : List RulesAct)
            → StandsFor self.now acts → result ≡ time_after (past_of self.now.configuration acts) }
        ensures limit { result ≤ last_moment }
    {
        self.time
    }

    /// Whether a link has a connection.
    pub fn is_live(&self, link: u8) -> bool
        ensures { (acts : List RulesAct)
            → StandsFor self.now acts → result ≡ is_live link (past_of self.now.configuration acts) }
    {
        is_live(self.connections.as_slice(), link)
    }
}

/// The time after an act.
fn later_of(time: u32, act: &Act) -> u32
    ensures { result ≡ later_of time (rules_act act.now) }
{
    match act {
        Act::Ticked { t } => time.max(*t),
        Act::Said { .. } | Act::Malformed { .. } | Act::Moved { .. } | Act::Crew { .. } => time,
    }
}

/// The crew's switch of emergency after an act.
fn crew_after(crew: bool, act: &Act) -> bool
    ensures { result ≡ crew_after crew (rules_act act.now) }
{
    match act {
        Act::Crew { on } => *on,
        Act::Said { .. } | Act::Malformed { .. } | Act::Moved { .. } | Act::Ticked { .. } => crew,
    }
}

/// An act on the live links, as time moves from `time` to `later`. What is due is added to `dues`, by rising link.
fn take(
    connections: &mut Connections,
    configuration: &Configuration,
    crew: bool,
    time: u32,
    later: u32,
    act: &Act,
    dues: &mut Dues,
)
    requires ordered { IsOrdered configuration.now.reserved (map connection_seen connections.old.items) }
    requires sound { All (IsSound time) connections.old.items }
    requires later { later ≡ later_of time (rules_act act.now) }
    requires limit { later ≤ last_moment }
    requires fits { array_vec_len dues.old.list + 20 ≤ 24 }
    ensures next { (links : ℕ) → map connection_seen connections.new.items
        ≡ connections_next (rules_act act.now) (table_seen links configuration.now time crew connections.old.items) }
    ensures sound { All (IsSound later) connections.new.items }
    ensures dues { (links : ℕ) → dues_in dues.new
        ≡ dues_in dues.old ++ table_dues (rules_act act.now) (table_seen links configuration.now time crew connections.old.items) }
{
    match act {
        Act::Said { link, message } => hear(
            connections,
            configuration,
            crew,
            time,
            *link,
            message,
            dues,
        ),
        Act::Malformed { link, refusal } => answer_malformed(
            connections.as_slice(),
            *link,
            refusal,
            dues,
        ),
        Act::Moved { .. } | Act::Ticked { .. } | Act::Crew { .. } => {
            fly_all(connections.as_mut_slice(), act, time, later, dues);
        }
    }
}
