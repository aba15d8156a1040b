//! What the definitions of this crate say of the contract rules.

ghost use Rattle.due_emergency.specs.LinkCalls.{ModeIsOfRules, TickIsOfRules};

/// The words on calls are the contract rules, told of calls in place of acts: after the calls that the acts of any history
/// make on a live link, its mode is the one of the contract rules, with their grid and their number of the next report, and
/// an emergency report falls due at a tick exactly where it does by them.
pub fn mode_is_of_rules()
    ensures mode { ModeIsOfRules }
    ensures tick { TickIsOfRules }
{}
