//! The laws of loopback files.

ghost use Rattle.mq_loopback.specs.Prelude.{FileLaws};

/// A text is at most one list of clients, and then no line of it is bad; and at most one line is.
pub fn file_laws()
    ensures { FileLaws }
{}
