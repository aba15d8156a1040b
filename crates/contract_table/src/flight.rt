//! The flight's acts, which concern every live link.

ghost use Rattle.std.specs.Prelude.{◌≡◌, ◌+◌, ◌≤◌, [], ◌++◌, All, flat_map, length, map};
ghost use Rattle.arrayvec.specs.ArrayVec.{array_vec_len};
ghost use Rattle.contract_rules.specs.Acts.{later_of};
ghost use Rattle.contract_table.specs.Acts.{last_moment, rules_act};
ghost use Rattle.contract_table.specs.ConnectionDues.{dues_flown};
ghost use Rattle.contract_table.specs.Dues.{dues_in};
ghost use Rattle.contract_table.specs.NextConnection.{flown};
ghost use Rattle.contract_table.specs.Seen.{connection_seen};
ghost use Rattle.contract_table.specs.Changes.{IsFlown};
ghost use Rattle.contract_table.specs.Sound.{IsSound};

use crate::act::Act;
use crate::connection::Connection;
use crate::due::Dues;

/// An act of the flight on every live link, as time moves from `time` to `later`. What is due is added to `dues`, by
/// rising link.
pub(crate) fn fly_all(
    connections: &mut [Connection],
    act: &Act,
    time: u32,
    later: u32,
    dues: &mut Dues,
)
    requires few { length connections.old ≤ 5 }
    requires fits { array_vec_len dues.old.list + 20 ≤ 24 }
    requires later { later ≡ later_of time (rules_act act.now) }
    requires limit { later ≤ last_moment }
    requires sound { All (IsSound time) connections.old }
    ensures next { map connection_seen connections.new
        ≡ map (flown time (rules_act act.now)) (map connection_seen connections.old) }
    ensures sound { All (IsSound later) connections.new }
    ensures dues { dues_in dues.new
        ≡ dues_in dues.old ++ flat_map (dues_flown time (rules_act act.now)) (map connection_seen connections.old) }
{
    for connection in connections.iter_mut() {
        connection.fly(act, time, later, dues);
    }
}

impl Connection {
    /// An act of the flight on a live link, as time moves from `time` to `later`.
    fn fly(&mut self, act: &Act, time: u32, later: u32, dues: &mut Dues)
        requires later { later ≡ later_of time (rules_act act.now) }
        requires limit { later ≤ last_moment }
        requires sound { IsSound time self.old }
        requires room { array_vec_len dues.old.list + 4 ≤ 24 }
        ensures flown { IsFlown time later (rules_act act.now) self.old self.new }
        ensures dues { dues_in dues.new
            ≡ dues_in dues.old ++ dues_flown time (rules_act act.now) (connection_seen self.old) }
        ensures len { array_vec_len dues.new.list ≤ array_vec_len dues.old.list + 4 }
    {
        match act {
            Act::Moved { before, now } => self.see(before, now, dues),
            Act::Ticked { .. } => self.tick(time, later, dues),
            Act::Crew { on } => self.crew(*on, time, dues),
            Act::Said { .. } | Act::Malformed { .. } => {}
        }
    }
}
