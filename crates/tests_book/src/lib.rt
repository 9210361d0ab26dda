//! Tests of `mq_book`: steps of a book, receipts, connections whose writes fail, a journal that is
//! full.
#![tactic(auto)]

#[cfg(test)]
mod full_journal;
#[cfg(test)]
mod line;
#[cfg(test)]
mod lost_writes;
#[cfg(test)]
mod receipts;
#[cfg(test)]
mod steps;
