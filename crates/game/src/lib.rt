// A match between the offering side, which plays a certificate, and a player: its states and its calls.
#![tactic(auto)]

mod loads;
pub mod matches;
mod rows;
