// The placing side: what every player promises, the player that goes by a rule, and two rules.
#![tactic(auto)]

pub mod best_fit;
pub mod bins;
pub mod by_rule;
pub mod player;
pub mod threshold;
