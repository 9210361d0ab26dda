//! Tests of the two client programs, over a scripted stream and over a server end, and of sessions
//! in a file, on a disk in memory.
#![tactic(auto)]

#[cfg(test)]
mod collect;
#[cfg(test)]
mod compare;
#[cfg(test)]
mod disk;
#[cfg(test)]
mod publish;
#[cfg(test)]
mod script;
#[cfg(test)]
mod served;
#[cfg(test)]
mod session;
#[cfg(test)]
mod side;
