//! Laws of records.

ghost use Rattle.scrib_record.specs.Turns.{StartsFresh, RecordTurnsSuffice};

/// Two laws of records under one present version. A new record is not stale under the version with which it was made.
/// After some turns a record is not stale, if 256 events for each cover its log at the last of them.
pub fn turns_suffice()
    ensures new { StartsFresh }
    ensures enough { RecordTurnsSuffice }
{}
