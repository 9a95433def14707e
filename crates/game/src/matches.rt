// The states of a match, and the item that lies on the table beside it.
ghost use Rattle.std.specs.Prelude.{◌≡◌, Some};
ghost use Rattle.game.specs.Outcomes.{outcome_word};

use certificate::fault::Fault;
use std::fmt;

pub mod ending;
pub mod forfeiting;
pub mod offering;
pub mod opening;
pub mod owing;
pub mod settling;

// How a match ended.
#[derive(Clone, Copy, PartialEq, Eq, Debug)]
pub enum Outcome {
    Over,
    Escape,
    Forfeit,
}

// As the sheet names it.
impl fmt::Display for Outcome {
    ghost output = { λ o. Some (outcome_word o) };

    fn fmt<W: fmt::Write>(&self, f: &mut fmt::Formatter<W>) -> fmt::Result {
        f.write_str(match self {
            Outcome::Over => "over",
            Outcome::Escape => "escape",
            Outcome::Forfeit => "forfeit",
        })
    }
}

// A match that can offer: its row, the size that the row offers, and how many settlements were accepted.
#[derive(Drop)]
pub struct Ready {
    row: usize,
    size: u16,
    count: usize,
}

// A match whose item lies on the table. A type of its own, alike but for its calls: each state has only its own.
#[derive(Drop)]
pub struct Waiting {
    row: usize,
    size: u16,
    count: usize,
}

// A match that has ended: how, the last placement's bin and its load, and how many settlements were accepted.
#[derive(Drop)]
pub struct Ended {
    outcome: Outcome,
    bin: usize,
    load: u16,
    count: usize,
}

// What an accepted settlement leads to.
#[derive(Drop)]
pub enum Next {
    GoesOn(Ready),
    Ends(Ended),
}

// A declined call: the fault, and the match as it was.
#[derive(Drop)]
pub struct Declined {
    pub fault: Fault,
    pub waiting: Waiting,
}

// An offered item. It stays owed until a settlement or a forfeit has spent it: its size is then 0.
pub struct Item {
    size: u16,
}

// Only a spent item may be let go.
impl Drop for Item {
    fn drop(self)
        requires { self.size ≡ 0 }
    {
        let Item { size: _ } = self;
    }
}
