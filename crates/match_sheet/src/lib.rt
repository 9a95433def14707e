// What the referee says of a certificate, a programme and a book: as values, and as the printed sheet.
#![tactic(auto)]

pub mod judgement;
mod matches;
mod stop;
pub mod text;
