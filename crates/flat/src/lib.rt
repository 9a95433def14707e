// The flat table: a certificate file whose positions stand in ascending order.
#![tactic(auto)]

mod flat_table;
mod open;
mod order;
mod store;

pub use flat_table::FlatTable;
