// One match, driven by tens of thousands of clumsy calls: each is declined with its number and changes nothing.
ghost use Rattle.std.specs.Prelude.{◌≡◌, MatchResult};
ghost use Rattle.game.specs.Turns.{spent};

use crate::tests::two_bins;
use certificate::fault::Fault;
use certificate::store::Store;
use flat::FlatTable;
use game::matches::opening::open_match;
use game::matches::settling::settle;
use game::matches::{Declined, Item, Next, Outcome, Ready, Waiting};
use players::best_fit::BestFit;
use players::by_rule::ByRule;
use players::player::Player;
use std::test::Fail;

// How many rounds of five clumsy settlements each turn has.
const ROUNDS: usize = 2500;

// What the match is played with, right and wrong.
#[derive(Drop)]
struct Clumsy {
    table: FlatTable,
    // every row offers another size here, and row 0 one of 3, which no turn of this match shows
    other: FlatTable,
    player: ByRule<BestFit>,
    moved: ByRule<BestFit>,
    foreign: ByRule<BestFit>,
    record: [u8; 10],
    // how many settlements were declined as they should be
    good: usize,
}

// A settlement that should be declined with a number: the match comes back, and it is counted where all is as it was.
fn declined<S: Store, P: Player>(
    waiting: Waiting,
    item: &mut Item,
    store: &S,
    player: &mut P,
    record: &mut [u8],
    number: u8,
    good: &mut usize,
) -> Result<Waiting, Next>
    ensures { MatchResult result (λ back. (back ≡ waiting) × (item.new ≡ item.old)) (λ _. (item.new ≡ spent) × (item.old.size ≡ waiting.size)) }
{
    let shown = (waiting.count(), waiting.size(), item.size());
    let loads = (player.load(0), player.load(1));
    match settle(waiting, item, store, player, record) {
        Ok(next) => Err(next),
        Err(Declined { fault, waiting }) => {
            if fault == Fault::of(number)
                && shown == (waiting.count(), waiting.size(), item.size())
                && loads == (player.load(0), player.load(1))
            {
                *good = good.saturating_add(1);
            }
            Ok(waiting)
        }
    }
}

impl Clumsy {
    // An item of another match, which shows another size; it is forfeited there afterwards.
    fn foreign_item(&mut self, waiting: Waiting, foreign: Ready) -> Waiting
        ensures { result ≡ waiting }
    {
        let (theirs, mut item) = foreign.offer();
        if item.size() == waiting.size() {
            let _ = theirs.forfeit(&mut item);
            return waiting;
        }
        let Clumsy {
            table,
            player,
            record,
            good,
            ..
        } = self;
        match declined(waiting, &mut item, table, player, record, 36, good) {
            Ok(back) => {
                let _ = theirs.forfeit(&mut item);
                back
            }
            Err(_) => unreachable(),
        }
    }

    // An item that was spent before, by a forfeit.
    fn spent_item(&mut self, waiting: Waiting, foreign: Ready) -> Waiting
        ensures { result ≡ waiting }
    {
        let (theirs, mut item) = foreign.offer();
        let _ = theirs.forfeit(&mut item);
        if waiting.size() == 0 {
            return waiting;
        }
        let Clumsy {
            table,
            player,
            record,
            good,
            ..
        } = self;
        match declined(waiting, &mut item, table, player, record, 36, good) {
            Ok(back) => back,
            Err(_) => unreachable(),
        }
    }

    // An item of another match and a spent one.
    fn other_items(&mut self, waiting: Waiting) -> Waiting
        ensures { result ≡ waiting }
    {
        let (Ok(third), Ok(fourth)) = (
            open_match(&self.other, &self.foreign),
            open_match(&self.other, &self.foreign),
        ) else {
            return waiting;
        };
        let waiting = self.foreign_item(waiting, third);
        self.spent_item(waiting, fourth)
    }

    // The right item with another store, with a player that has moved on, and with a record that is too short.
    fn own_item(&mut self, waiting: Waiting, item: &mut Item) -> Result<Waiting, Next>
        ensures { MatchResult result (λ back. (back ≡ waiting) × (item.new ≡ item.old)) (λ _. item.new ≡ spent) }
    {
        let Clumsy {
            table,
            other,
            player,
            moved,
            record,
            good,
            ..
        } = self;
        let waiting = declined(waiting, item, other, player, record, 34, good)?;
        let waiting = declined(waiting, item, table, moved, record, 35, good)?;
        declined(waiting, item, table, player, &mut [7], 37, good)
    }

    // A turn: rounds of clumsy settlements, and then a right one.
    fn turn(&mut self, ready: Ready) -> Result<Next, Fail> {
        let (mut waiting, mut item) = ready.offer();
        for _ in 0..ROUNDS {
            waiting = self.other_items(waiting);
            match self.own_item(waiting, &mut item) {
                Ok(back) => waiting = back,
                Err(_) => return Err(Fail::new("a clumsy settlement was accepted")),
            }
        }
        match settle(
            waiting,
            &mut item,
            &self.table,
            &mut self.player,
            &mut self.record,
        ) {
            Ok(next) => Ok(next),
            Err(Declined { fault: _, waiting }) => {
                let _ = waiting.forfeit(&mut item);
                Err(Fail::new("the right settlement was declined"))
            }
        }
    }
}

// Fifty thousand clumsy settlements later the match is over, as if there had been none.
#[test]
fn clumsy_calls(rt: HostRuntime) -> Result<(), Fail> {
    let heap = rt.alloc();
    let mut moved = BestFit::new(2, 4)?;
    moved.place(9)?;
    let mut clumsy = Clumsy {
        table: two_bins(heap, &[])?,
        other: two_bins(heap, &[(34, 2), (41, 2), (48, 0), (55, 0), (62, 0)])?,
        player: BestFit::new(2, 4)?,
        moved,
        foreign: BestFit::new(2, 4)?,
        record: [9; 10],
        good: 0,
    };
    let mut ready = open_match(&clumsy.table, &clumsy.player)?;
    for turn in 1..5 {
        match clumsy.turn(ready)? {
            Next::GoesOn(next) => {
                assert_eq!(rt; next.count(), turn);
                ready = next;
            }
            Next::Ends(ended) => {
                assert_eq!(rt; ended.count(), 4);
                assert_eq!(rt; ended.result(), (Outcome::Over, 0, 4, 4));
                assert!(rt; clumsy.record == [1, 0, 1, 0, 2, 1, 2, 0, 9, 9]);
                assert_eq!(rt;
                    (clumsy.moved.load(0), clumsy.moved.load(1)),
                    (Some(9), Some(0))
                );
                assert_eq!(rt; clumsy.good, 50_000);
                return Ok(());
            }
        }
    }
    Err(Fail::new("the match did not end"))
}
