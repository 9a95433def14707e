// A certificate file whose header and length are right.
#![tactic(auto)]

pub mod row_file;
