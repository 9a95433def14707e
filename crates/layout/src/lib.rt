// The layout of a certificate file: its header, where its parts lie, and what its bytes mean.
#![tactic(auto)]

pub mod header;
pub mod key;
pub mod read;
