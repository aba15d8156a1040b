//! Laws of the definitions, as contracts of functions without a body.

ghost use Rattle.run_rules.specs.Laws.{OneReading, OneScript, EachInputIsAScript, OneRun, OneOutput, JournalLineShowsOrder, EachScriptHasARun, RisingIsAllowed, EachEntryStandsOnce, OrdersNameLines, LinkStandsInLine, WorkerStandsInLine, BurstsStandInLine, OneWorkerRises, OrdersAgree, WhatIsShownWasAccepted, FewAsksReuseNothing};
ghost use Rattle.run_rules.specs.FaultTable.{FirstFaultStops};
ghost use Rattle.run_rules.specs.SentTexts.{SentMessageIsTaken};
ghost use Rattle.run_rules.specs.Histories.Confirmed.{BringsTwice, Confirms};
ghost use Rattle.run_rules.specs.Histories.Heads.{HeadAlone, HeadCutOff, LimitBehindHead, OtherLetter};
ghost use Rattle.run_rules.specs.Histories.Written.{ConfirmedIsWritten};
ghost use Rattle.run_rules.specs.Histories.Lines.{AnswersAreRefused, BadLinesAreWritten, HappeningsTell, HeadLettersAreDue, HeadLinesStop, JournalsAreWritten, LimitIsWritten, LogonsAreWritten, PlacesAreCounted, RefusedTextsAreWritten, RowsAreWritten};
ghost use Rattle.run_rules.specs.Histories.BadLines.{NoLogon, NoSuchNumber, NothingToCancel, OtherRole, StillWaiting, UnlistedAddress};
ghost use Rattle.run_rules.specs.Histories.Bursts.{OrderDecides};
ghost use Rattle.run_rules.specs.Histories.NotAllowed.{AcrossACancel, AcrossATick, OfOneWorker};
ghost use Rattle.run_rules.specs.Histories.Reuse.{OldDownlink, OldUplink, OtherRow};

/// A line has at most one reading at its place: it isn't both bad and right, and it has one fault or says one thing.
/// So an input is at most one script.
pub fn a_line_has_one_reading()
    ensures line { OneReading }
    ensures script { OneScript }
{}

/// Each input is a script: whatever bytes its lines hold, each of them is read in some way.
pub fn each_input_is_a_script()
    ensures { EachInputIsAScript }
{}

/// A script has at most one run under an order of its entries: what happens, and how it ends, is determined. And what
/// is written of a run is determined too.
pub fn a_script_has_one_run()
    ensures run { OneRun }
    ensures output { OneOutput }
{}

/// What orders are allowed: the line of each entry stands in it once, and nothing else, so it is a list of numbers of
/// the script's lines; the entries of one link stand in the order of their lines, and so do those of the links of one
/// worker; entries that are not of one burst stand in the order of their lines; and with one worker the order rises.
pub fn allowed_orders_keep_line_order()
    ensures once { EachEntryStandsOnce }
    ensures lines { OrdersNameLines }
    ensures link { LinkStandsInLine }
    ensures worker { WorkerStandsInLine }
    ensures bursts { BurstsStandInLine }
    ensures alone { OneWorkerRises }
{}

/// The journal line of an output shows its order: no two allowed orders have one journal line, be they of one script
/// or of two, whatever stands behind it.
pub fn a_journal_line_shows_its_order()
    ensures { JournalLineShowsOrder }
{}

/// Each script has a run under each order: every payload that stands in the journal is read, so there are downlinks
/// to bring, and every downlink says something to its centre.
pub fn a_script_has_a_run_under_each_order()
    ensures { EachScriptHasARun }
{}

/// Each script has a run under an order that rises, the order of its entries' lines; and that order is allowed for
/// every number of workers. So every script has a run under an allowed order.
pub fn a_rising_order_is_allowed()
    ensures { RisingIsAllowed }
{}

/// With at most five ground addresses it doesn't matter in which allowed order the entries are taken, nor by how many
/// workers: of two runs of a script the same happens and they end alike, so the same texts are refused and each
/// centre has the same rows; each link has the same downlinks and the same logon state; and so the output is the same
/// but for its journal line.
pub fn orders_agree()
    ensures { OrdersAgree }
{}

/// What a centre sent is taken by its aircraft as a text from the ground just as when it is brought: the text that
/// carries it is read, bears an address of the aircraft and its registration, and makes the same entry of the
/// journal.
pub fn a_sent_message_is_taken()
    ensures { SentMessageIsTaken }
{}

/// A run that comes to a line behind the head ends there with a bad line exactly where the line has a fault, and by
/// its first one: that of its form, or else the first row that applies of a table. The rows are, in order: an address
/// that isn't listed, the other role, a place at which nothing stands, no logon, a request that is pending, and
/// nothing to cancel.
pub fn the_first_fault_stops()
    ensures { FirstFaultStops }
{}

/// Worked scripts that are no longer than their head: a line of it is missing or has another letter, all three are
/// there, or the limit is met behind them.
pub fn worked_heads()
    ensures head_cut_off { HeadCutOff }
    ensures other_letter { OtherLetter }
    ensures head_alone { HeadAlone }
    ensures limit_behind_head { LimitBehindHead }
{}

/// Worked scripts that confirm: a logon, a request, and its acknowledgement, with what is written of them; and the
/// same request and the same acknowledgement brought twice.
pub fn worked_scripts()
    ensures confirms { Confirms }
    ensures confirmed_is_written { ConfirmedIsWritten }
    ensures brings_twice { BringsTwice }
{}

/// Worked scripts that end with a line that is bad by what stands before it, one for each of the six causes.
pub fn worked_bad_lines()
    ensures unlisted_address { UnlistedAddress }
    ensures other_role { OtherRole }
    ensures no_such_number { NoSuchNumber }
    ensures no_logon { NoLogon }
    ensures still_waiting { StillWaiting }
    ensures nothing_to_cancel { NothingToCancel }
{}

/// Single lines of an output, one of each form, come out as they are written, places in texts are where the parts of
/// a text begin, the head has its letters and they stop a run behind it, and single happenings tell what they should.
pub fn worked_lines()
    ensures journals { JournalsAreWritten }
    ensures logons { LogonsAreWritten }
    ensures refused { RefusedTextsAreWritten }
    ensures rows { RowsAreWritten }
    ensures bad { BadLinesAreWritten }
    ensures limit { LimitIsWritten }
    ensures places { PlacesAreCounted }
    ensures letters { HeadLettersAreDue }
    ensures head { HeadLinesStop }
    ensures answers { AnswersAreRefused }
    ensures tell { HappeningsTell }
{}

/// A worked burst: six ground addresses ask in one burst, and which of them isn't heard is decided by the order in
/// which five workers take their texts; both orders are allowed.
pub fn worked_burst()
    ensures { OrderDecides }
{}

/// Worked orders that aren't allowed, and some that are: two texts may not be exchanged across a tick or a cancel,
/// nor where one worker takes both.
pub fn worked_orders()
    ensures across_a_tick { AcrossATick }
    ensures across_a_cancel { AcrossACancel }
    ensures of_one_worker { OfOneWorker }
{}

/// Worked scripts in which a centre reuses a number too early, one for each of the three ways, and then shows a
/// request as confirmed that the aircraft never accepted: an old uplink or an old downlink is brought after the
/// number came again, or the row of another kind bears the number when it comes again.
pub fn worked_early_reuse()
    ensures old_uplink { OldUplink }
    ensures old_downlink { OldDownlink }
    ensures other_row { OtherRow }
{}

/// What a centre shows confirmed, in full or in part, at the end of a run, however it ends, was accepted by its
/// aircraft with those parameters, unless the centre reused a number too early. It holds for every number of workers
/// and every order that they may take the entries in, and it says nothing of what is in force by then.
pub fn what_is_shown_was_accepted()
    ensures { WhatIsShownWasAccepted }
{}

/// A centre that asks at most 255 times reuses no number too early: a number comes back only with the 256th ask. So
/// what such a centre shows confirmed was accepted.
pub fn few_asks_reuse_nothing()
    ensures { FewAsksReuseNothing }
{}
