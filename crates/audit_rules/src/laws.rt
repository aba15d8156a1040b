//! Laws of the definitions, as contracts of functions without a body.

ghost use Rattle.audit_rules.specs.Laws.{OneAuditEnd, OneLogReading};

/// A line of a log has at most one reading at its place.
pub fn a_log_line_has_one_reading()
    ensures { OneLogReading }
{}

/// The audit of an input has at most one end: it conforms or differs, and then first at one entry, on one link.
pub fn an_input_has_one_audit_end()
    ensures { OneAuditEnd }
{}
