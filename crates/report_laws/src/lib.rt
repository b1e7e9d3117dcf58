//! How the text of a report grows. The functions do nothing: their contracts are the laws.
#![tactic(auto)]

ghost use Rattle.report_laws.specs.Laws.{ALineIsAdded, ASnapshotIsAdded, OtherEntriesAddNothing, ASnapshotIsWritten, AReportIsWritten};

/// A line for each event, and the end of the report.
pub fn texts()
    ensures line { ALineIsAdded }
    ensures report { AReportIsWritten }
{}

/// A snapshot for each event that asks for one.
pub fn snapshots()
    ensures added { ASnapshotIsAdded }
    ensures nothing { OtherEntriesAddNothing }
    ensures written { ASnapshotIsWritten }
{}
