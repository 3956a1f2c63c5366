//! Laws of verdicts.
ghost use Rattle.history_audit.specs.Laws.{NoReportIsBoth, OneLineFails, ReportsTell};

/// Bytes are the report of one history.
pub fn reports_tell()
    ensures { ReportsTell }
{}

/// No bytes are the report of a lawful history and fail at a line.
pub fn no_report_is_both()
    ensures { NoReportIsBoth }
{}

/// Bytes fail at one line.
pub fn one_line_fails()
    ensures { OneLineFails }
{}
