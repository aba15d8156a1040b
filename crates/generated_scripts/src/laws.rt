//! The laws of generated scripts, each as a function that returns what its contract states.

ghost use Rattle.generated_scripts.specs.Laws.{EachLineIsTaken, EachRunHasASummary, LinesAreReadAsDrawn, LinesAreWithin, OneSummary, ScriptsAreReadAsDrawn};
ghost use Rattle.generated_scripts.specs.Worked.{FirstLinesOfOne};

/// All that is drawn for a script of at most 200,000 lines is within its limits: each column is one that a sample may have, the clock stays
/// below 1,000,000,000 s, and each text comes from one of the five addresses.
pub fn drawn_lines_are_within_limits()
    ensures { LinesAreWithin }
{}

/// Each line behind the head is read as what was drawn, wherever it stands: a sample with these columns, a time, the crew's emergency act, or
/// a text of ADS from this address, for the script's aircraft, with this payload, which is read as an uplink or, where it is the malformed
/// one, refused.
pub fn drawn_lines_are_read_as_drawn()
    ensures { LinesAreReadAsDrawn }
{}

/// A script of 3 to 200,000 lines is within the limits of a script, and it is read as what was drawn: the aircraft, its five ground
/// addresses, a sample of zeros, and then each line as it was drawn, one for each in their order.
pub fn scripts_are_read_as_drawn()
    ensures { ScriptsAreReadAsDrawn }
{}

/// Each line of a script is taken, under each order of its entries: the run comes to the end of the script, the journal has an entry for each
/// line behind the head, and a text is refused, besides, where its payload is the malformed one, and nowhere else.
pub fn each_line_is_taken()
    ensures { EachLineIsTaken }
{}

/// A script has one summary: each run of it has one, and however many workers take its entries, and in whichever order they may, the text is
/// the same.
pub fn a_generated_script_has_one_summary()
    ensures one { OneSummary }
    ensures each { EachRunHasASummary }
{}

/// The first lines of the script of number 1, worked draw by draw.
pub fn worked_lines()
    ensures { FirstLinesOfOne }
{}
