// Books: what a player does in each situation, and the player that goes by one.
#![tactic(auto)]

pub mod book;
mod pages;
mod situation;
