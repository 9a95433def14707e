// What the referee says of a certificate's bytes: as a value, and as the printed sheet.
#![tactic(auto)]

pub mod judgement;
pub mod text;
