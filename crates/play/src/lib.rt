// Playing a match to its end, with a player that takes every item that is offered.
#![tactic(auto)]

ghost use Rattle.std.specs.Prelude.{◌≡◌, ◌*◌, ◌≤◌, length, IfOk, Ok};
ghost use Rattle.game.specs.Opening.{opened};
ghost use Rattle.play.specs.Playing.{Turn, Plays, Computed, WinsFrom};

use certificate::fault::Fault;
use certificate::store::Store;
use game::matches::opening::open_match;
use game::matches::settling::settle;
use game::matches::{Declined, Ended, Next, Ready};
use players::player::Player;

// One turn: an offer, and the settlement of its item. A declined item is forfeited, so that none stays owed. Store, player
// and record are lent apart: `play` is not proved yet with a struct of the three references.
fn take_turn<S: Store, P: Player>(
    ready: Ready,
    store: &S,
    player: &mut P,
    record: &mut [u8],
) -> Result<Next, Fault>
    ensures turn { Turn (S.Store.meaning store.now) (P.Player.takes player.old) ready (P.Player.loads player.old) «record».old result (P.Player.loads player.new) «record».new }
    ensures kept { P.Player.takes player.new ≡ P.Player.takes player.old }
{
    let (waiting, mut item) = ready.offer();
    match settle(waiting, &mut item, store, player, record) {
        Ok(next) => Ok(next),
        Err(Declined { fault, waiting }) => {
            let _ = waiting.forfeit(&mut item);
            Err(fault)
        }
    }
}

// Takes turns in a match that was just opened, until it ends or until one is declined.
fn take_turns<S: Store, P: Player>(
    mut ready: Ready,
    store: &S,
    player: &mut P,
    record: &mut [u8],
) -> Result<Ended, Fault>
    requires { opened (S.Store.meaning store.now) (P.Player.loads player.old) ≡ Ok ready }
    ensures plays { Plays (S.Store.meaning store.now) (P.Player.takes player.old) (P.Player.loads player.old) «record».old result (P.Player.loads player.new) «record».new }
    ensures computed { Computed (S.Store.meaning store.now) (P.Player.takes player.old) (P.Player.loads player.old) «record».old result (P.Player.loads player.new) «record».new }
    ensures wins { WinsFrom (S.Store.meaning store.now) (P.Player.loads player.old) «record».old result (P.Player.loads player.new) }
    ensures kept { P.Player.takes player.new ≡ P.Player.takes player.old }
    ensures room { IfOk result (λ e. 2 * e.count ≤ length «record».old) }
{
    loop {
        match take_turn(ready, store, player, record)? {
            Next::GoesOn(next) => ready = next,
            Next::Ends(ended) => return Ok(ended),
        }
    }
}

// Opens a match and plays it to its end. On a store that the check accepts, with empty bins and a record that is long
// enough, it ends over within the bound.
pub fn play<S: Store, P: Player>(
    store: &S,
    player: &mut P,
    record: &mut [u8],
) -> Result<Ended, Fault>
    ensures plays { Plays (S.Store.meaning store.now) (P.Player.takes player.old) (P.Player.loads player.old) «record».old result (P.Player.loads player.new) «record».new }
    ensures computed { Computed (S.Store.meaning store.now) (P.Player.takes player.old) (P.Player.loads player.old) «record».old result (P.Player.loads player.new) «record».new }
    ensures wins { WinsFrom (S.Store.meaning store.now) (P.Player.loads player.old) «record».old result (P.Player.loads player.new) }
    ensures kept { P.Player.takes player.new ≡ P.Player.takes player.old }
    ensures room { IfOk result (λ e. 2 * e.count ≤ length «record».old) }
{
    let ready = open_match(store, player)?;
    take_turns(ready, store, player, record)
}
