// Positions on their way through a check, and the numbers of a row that a store has or lacks.
#![tactic(auto)]

mod list;
pub mod numbers;
pub mod steps;

pub use list::Numbers;
