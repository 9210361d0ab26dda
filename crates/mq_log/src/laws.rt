//! Laws of journals.

ghost use Rattle.mq_log.specs.Prelude.{JournalLaws};

/// The laws of journals: a file at rest is read as the entries that were put, a file is the blocks
/// of its entries and a rest, and the checksum detects a change of one byte in an entry.
pub fn journal_laws()
    ensures { JournalLaws }
{}
