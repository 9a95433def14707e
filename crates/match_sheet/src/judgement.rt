// A certificate file opened as a flat table and checked, which matches can then be played on.
pub use sheet::judgement::{Checked, checked_file as judge_file};
