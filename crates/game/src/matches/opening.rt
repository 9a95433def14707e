// Opening a match, and the law that it keeps from then on.
ghost use Rattle.std.specs.Prelude.{◌≡◌, ℕ, List, IfOk, Some, Ok};
ghost use Rattle.certificate.specs.Rules.{judge_all};
ghost use Rattle.game.specs.Opening.{empty_rule, opening_rules, start_row, opened};
ghost use Rattle.game.specs.Settling.{ready_at};
ghost use Rattle.game.specs.Law.{Law};

use super::Ready;
use crate::rows::first_row;
use certificate::fault::Fault;
use certificate::reason::Reason;
use certificate::rule::{RuleOf, Scope, judge};
use certificate::store::Store;
use players::player::{Player, borne};

// Every bin of a player is empty.
#[derive(Clone, Copy)]
struct Empty;

impl<P: Player> RuleOf<P> for Empty {
    ghost rule = { λ _ p. empty_rule (P.Player.loads p) };

    fn scope(&self, player: &P) -> Scope {
        Scope::of(Reason::LoadedBin, player.bins(), 1)
    }

    fn is_broken(&self, player: &P, bin: usize, _place: usize) -> bool {
        borne(player, bin) != 0
    }
}

// A match that is ready at the empty position's row. It keeps the law with each player that it may be opened with.
fn begin<S: Store>(store: &S, row: usize) -> Ready
    requires { start_row (S.Store.meaning store.now) ≡ Some row }
    ensures answer { result ≡ ready_at (S.Store.meaning store.now) row 0 }
    ensures law { (loads : List ℕ) → judge_all (opening_rules (S.Store.meaning store.now) loads) ≡ Ok tt → Law (S.Store.meaning store.now) loads result }
{
    Ready::at(store, row, 0)
}

// A match that is ready at the empty position's row. If the check accepts the store, then whatever calls follow, the
// match keeps the law.
pub fn open_match<S: Store, P: Player>(store: &S, player: &P) -> Result<Ready, Fault>
    ensures answer { result ≡ opened (S.Store.meaning store.now) (P.Player.loads player.now) }
    ensures law { IfOk result (Law (S.Store.meaning store.now) (P.Player.loads player.now)) }
{
    let row = first_row(store).ok_or(Reason::NoFirstRow)?;
    if player.bins() != store.bins() {
        return Err(Reason::OtherBins.into());
    }
    judge(&Empty, player)?;
    Ok(begin(store, row))
}
