// The check of a certificate over any store, and what an accepted one means.
#![tactic(auto)]

pub mod check;
pub mod rules;
mod sums;
pub mod verdict;
