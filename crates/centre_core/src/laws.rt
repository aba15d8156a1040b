//! Laws of the definitions, as contracts of functions without a body.

ghost use Rattle.centre_core.specs.Laws.{OneHearing, OwnContactIsHeard, OwnDownlinkIsHeard, RowsGoOn, SealedDownlinkIsHeard};
ghost use Rattle.centre_core.specs.Worked.{AskedConfirmedCancelled, RefusedAskedAgain, TwoKinds};

/// Rows go on event by event: the table at the end of a history, which looks back over all of it,
/// is the one before the last event, changed by that event.
pub fn rows_go_on()
    ensures { RowsGoOn }
{}

/// A text says at most one thing to a centre.
pub fn a_text_says_one_thing()
    ensures { OneHearing }
{}

/// A sealed downlink to the centre from its aircraft says exactly its items, whatever its padding;
/// so what the aircraft's encoder and `seal` made of items is heard as these items.
pub fn own_downlink_is_heard()
    ensures sealed { SealedDownlinkIsHeard }
    ensures own { OwnDownlinkIsHeard }
{}

/// A contact that an aircraft writes says this contact to the centre to which it is sent.
pub fn own_contact_is_heard()
    ensures { OwnContactIsHeard }
{}

/// Worked histories: where a row stands after each event, by computation.
pub fn worked_histories()
    ensures asked_confirmed_cancelled { AskedConfirmedCancelled }
    ensures refused_asked_again { RefusedAskedAgain }
    ensures two_kinds { TwoKinds }
{}
