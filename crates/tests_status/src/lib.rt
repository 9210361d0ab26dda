//! Tests of `mq_status`: responses to heads, printed metrics, the page with hostile names, lines of
//! the log, and files of passwords.
#![tactic(auto)]

#[cfg(test)]
mod http;
#[cfg(test)]
mod metrics;
#[cfg(test)]
mod page;
#[cfg(test)]
mod passwords;
#[cfg(test)]
mod texts;
