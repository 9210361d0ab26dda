//! Why a text is not a format.

use thiserror::Error;

/// Why a text is not a format.
#[derive(Clone, Copy, Debug, PartialEq, Eq, Error)]
pub enum FormatFault {
    /// It ends inside a field.
    #[error("it ends after `%`, `@` or a backslash")]
    Incomplete,
    /// There is no such field.
    #[error("there is no field `%{0}`")]
    NoField(char),
    /// There is no such field of a time.
    #[error("there is no field `@{0}`")]
    NoTimeField(char),
    /// There is no such escape.
    #[error("there is no escape `\\{0}`")]
    NoEscape(char),
    /// An allocation failed.
    #[error("out of memory")]
    Memory,
}
