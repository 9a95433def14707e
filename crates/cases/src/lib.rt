// The worked examples: the two-bin table and its damaged forms, run through the code.
#![tactic(auto)]

#[cfg(test)]
mod tests;
pub mod two_bins;
