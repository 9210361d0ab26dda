//! Texts made from the definition of a command line: the completion script for bash and the manual
//! page.
//!
//! A call that may allocate says so in its return type; other calls never allocate.
#![tactic(auto)]

mod arguments;
mod completion;
mod manual;
mod roff;

pub use crate::completion::completion_script;
pub use crate::manual::manual_page;
