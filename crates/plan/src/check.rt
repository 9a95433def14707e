// The check: accepts exactly the winning plans, and so only true bounds.
ghost use Rattle.std.specs.Prelude.{◌≡◌, ◌↔◌, IfOk, IsOk, OnOk};
ghost use Rattle.certificate.specs.Rules.{judge_all};
ghost use Rattle.certificate.specs.Least.{Judges};
ghost use Rattle.plan.specs.Plan.{plan_rules, bound, verdict as verdict_of};
ghost use Rattle.plan.specs.Winning.{Winning, Forced, ForcedWithin};

use crate::rules::{Accounts, Descends, GoesOn, Packs, Shares, Starts};
use crate::verdict::Verdict;
use certificate::fault::Fault;
use certificate::rule::judge;
use certificate::store::Store;
use positions::numbers::size_of;

// Numbers 21 to 26, each over the whole table.
fn plan_holds<S: Store>(store: &S) -> Result<(), Fault>
    ensures { result ≡ judge_all (plan_rules (S.Store.meaning store.now)) }
{
    judge(&Starts, store)?;
    judge(&Descends, store)?;
    judge(&Accounts, store)?;
    judge(&Packs, store)?;
    judge(&Shares, store)?;
    judge(&GoesOn, store)
}

// The most items that can fit: the whole part of m × T / s.
#[tactic(auto, using(crate::proofs::Sizes::smallest_some))]
fn most_items<S: Store>(store: &S) -> usize
    ensures { result ≡ bound (S.Store.meaning store.now) }
{
    store.bins() * usize::from(store.capacity()) / usize::from(size_of(store, 0))
}

// The number of rows and the bound of a winning plan, or the least fault.
pub fn check<S: Store>(store: &S) -> Result<Verdict, Fault>
    ensures answer { result ≡ verdict_of (S.Store.meaning store.now) }
    ensures winning { IsOk result ↔ Winning (S.Store.meaning store.now) }
    ensures least { Judges (plan_rules (S.Store.meaning store.now)) result }
    ensures forces { OnOk result (Forced (S.Store.meaning store.now)) }
    ensures within { IfOk result (λ v. ForcedWithin v.bound (S.Store.meaning store.now)) }
{
    plan_holds(store)?;
    Ok(Verdict {
        rows: store.rows(),
        bound: most_items(store),
    })
}
