//! Laws of recorded events.

ghost use Rattle.mq_record.specs.Laws.{RecordLaws};

/// The laws of recorded events: encoding and reading are inverse to each other, each event has one
/// encoding, and a proper prefix of it is read as `Cut`.
pub fn record_laws()
    ensures { RecordLaws }
{}
