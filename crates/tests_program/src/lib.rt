//! Tests of the crates above both ends: worlds, schedules, replays, and the jobs of the program.
#![tactic(auto)]

#[cfg(test)]
mod compare;
#[cfg(test)]
mod picture;
#[cfg(test)]
mod program;
#[cfg(test)]
mod replay;
#[cfg(test)]
mod schedule;
#[cfg(test)]
mod world;
