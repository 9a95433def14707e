// What a certificate is, how its rules are judged, how a refusal is told, and the interface of every store of its rows.
#![tactic(auto)]

pub mod fault;
pub mod limits;
pub mod reason;
pub mod refused;
pub mod rule;
pub mod store;
