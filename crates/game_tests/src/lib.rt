// Matches on the two-bin table, run through the code.
#![tactic(auto)]

#[cfg(test)]
mod clumsy;
#[cfg(test)]
mod tests;
