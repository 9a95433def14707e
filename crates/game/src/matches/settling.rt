// Settling an item: the player places it, the record is written, and the match goes on or ends.
ghost use Rattle.std.specs.Prelude.{◌≡◌, ◌+◌, ◌/◌, ◌<◌, length};
ghost use Rattle.certificate.specs.Certificates.{row_count};
ghost use Rattle.certificate.specs.Rules.{judge_all};
ghost use Rattle.game.specs.Settling.{settling_rules, leads, entered, Settles, SettlesBy};

use super::{Declined, Ended, Item, Next, Outcome, Ready, Waiting};
use crate::loads::row_is_at;
use crate::rows::{offers_still, row_following};
use certificate::fault::Fault;
use certificate::reason::Reason;
use certificate::store::Store;
use players::player::{Player, borne};

// Passes a settlement that may be tried; the fault that declines any other.
fn admit<S: Store, P: Player>(
    waiting: &Waiting,
    size: u16,
    store: &S,
    player: &P,
    len: usize,
) -> Result<(), Fault>
    ensures { result ≡ judge_all (settling_rules (S.Store.meaning store.now) waiting.now size len (P.Player.loads player.now)) }
{
    if !offers_still(store, waiting.row, waiting.size) {
        return Err(Reason::OtherRow.into());
    }
    if !row_is_at(store, waiting.row, player) {
        return Err(Reason::OtherLoads.into());
    }
    if size != waiting.size {
        return Err(Reason::OtherItem.into());
    }
    if len / 2 <= waiting.count {
        return Err(Reason::ShortRecord.into());
    }
    Ok(())
}

// Writes the size and the bin of a settlement behind those of the settlements before.
fn enter(record: &mut [u8], count: usize, size: u8, bin: u8)
    requires { count < length «record».old / 2 }
    ensures { «record».new ≡ entered «record».old count size bin }
{
    // two writes: by `copy_from_slice` the proof is at the edge of the search
    record[2 * count] = size;
    record[2 * count + 1] = bin;
}

// What follows once an item of a size went into a bin that carried `before`.
fn follow<S: Store>(store: &S, count: usize, row: usize, bin: usize, before: u16, size: u16) -> Next
    requires { (row < row_count (S.Store.meaning store.now)) × (before + size < 65536) }
    ensures { result ≡ leads (S.Store.meaning store.now) count row bin before size }
{
    let load = before + size;
    let ends = |outcome| {
        Next::Ends(Ended {
            outcome,
            bin,
            load,
            count,
        })
    };
    if load >= store.target() {
        return ends(Outcome::Over);
    }
    match row_following(store, row, before) {
        Some(next) => Next::GoesOn(Ready::at(store, next, count)),
        None => ends(Outcome::Escape),
    }
}

// The player places the item on the table. Accepted, size and bin are recorded and the item is spent; declined, the
// waiting match comes back, and all is as before.
pub fn settle<S: Store, P: Player>(
    waiting: Waiting,
    item: &mut Item,
    store: &S,
    player: &mut P,
    record: &mut [u8],
) -> Result<Next, Declined>
    ensures settled { Settles (S.Store.meaning store.now) waiting item.old «record».old (P.Player.loads player.old) result item.new «record».new (P.Player.loads player.new) }
    ensures ruled { SettlesBy (S.Store.meaning store.now) (P.Player.takes player.old) waiting item.old «record».old (P.Player.loads player.old) result item.new «record».new (P.Player.loads player.new) }
    ensures rule_kept { P.Player.takes player.new ≡ P.Player.takes player.old }
{
    let size = item.size;
    if let Err(fault) = admit(&waiting, size, store, player, record.len()) {
        return Err(Declined { fault, waiting });
    }
    match player.place(size) {
        Ok(bin) => {
            // both are proved to be bytes; `try_from` and an `unwrap` are no plainer
            enter(record, waiting.count, size as u8, bin as u8);
            item.size = 0;
            let before = borne(player, bin) - size;
            Ok(follow(store, waiting.count + 1, waiting.row, bin, before, size))
        }
        Err(fault) => Err(Declined { fault, waiting }),
    }
}
