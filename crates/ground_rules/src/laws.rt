//! Laws of the definitions, as contracts of functions without a body.

ghost use Rattle.ground_rules.specs.Worked.{AskedTooEarly, BadInAWatch, LateAgain, LateOnce, TextIgnored};

/// Worked ground logs: a report that is late once, one that is late again after it came, a request before a contact, a text that is
/// ignored, and lines that a watch refuses.
pub fn worked_ground_logs()
    ensures late_once { LateOnce }
    ensures late_again { LateAgain }
    ensures too_early { AskedTooEarly }
    ensures ignored { TextIgnored }
    ensures bad { BadInAWatch }
{}
