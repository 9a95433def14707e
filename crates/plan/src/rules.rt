// The rules of a winning plan: numbers 21 to 26.
ghost use Rattle.std.specs.Prelude.{◌≡◌};
ghost use Rattle.plan.specs.Plan.{starts_rule, descends_rule, accounts_rule, packs_rule, shares_rule, goes_on_rule};

use crate::sums::{packed_of_class, sum_of_loads, sum_packed, sum_placed};
use certificate::reason::Reason;
use certificate::rule::{RuleOf, Scope};
use certificate::store::Store;
use positions::numbers::{count_of, load_of, offer_of, offered_by};
use positions::steps::{empty_position, next_position};

// The empty position has a row.
#[derive(Clone, Copy)]
pub struct Starts;

impl<S: Store> RuleOf<S> for Starts {
    ghost rule = { λ _ s. starts_rule (S.Store.meaning s) };

    fn scope(&self, _store: &S) -> Scope {
        Scope::of(Reason::NoStart, 1, 1)
    }

    fn is_broken(&self, store: &S, _row: usize, _place: usize) -> bool {
        empty_position(store).row_in(store).is_none()
    }
}

// No load is above the one before it.
#[derive(Clone, Copy)]
pub struct Descends;

impl<S: Store> RuleOf<S> for Descends {
    ghost rule = { λ _ s. descends_rule (S.Store.meaning s) };

    fn scope(&self, store: &S) -> Scope {
        Scope::of(Reason::LoadRises, store.rows(), store.bins())
    }

    fn is_broken(&self, store: &S, row: usize, bin: usize) -> bool {
        bin > 0 && load_of(store, row, bin) > load_of(store, row, bin - 1)
    }
}

// The loads add up to the counts times their sizes.
#[derive(Clone, Copy)]
pub struct Accounts;

impl<S: Store> RuleOf<S> for Accounts {
    ghost rule = { λ _ s. accounts_rule (S.Store.meaning s) };

    fn scope(&self, store: &S) -> Scope {
        Scope::of(Reason::SumsDiffer, store.rows(), 1)
    }

    fn is_broken(&self, store: &S, row: usize, _place: usize) -> bool {
        sum_of_loads(store, row) != sum_placed(store, row)
    }
}

// No packing bin holds more than T.
#[derive(Clone, Copy)]
pub struct Packs;

impl<S: Store> RuleOf<S> for Packs {
    ghost rule = { λ _ s. packs_rule (S.Store.meaning s) };

    fn scope(&self, store: &S) -> Scope {
        Scope::of(Reason::Overfull, store.rows(), store.bins())
    }

    fn is_broken(&self, store: &S, row: usize, bin: usize) -> bool {
        sum_packed(store, row, bin) > u64::from(store.capacity())
    }
}

// The packing bins hold what was placed and the offered item.
#[derive(Clone, Copy)]
pub struct Shares;

impl<S: Store> RuleOf<S> for Shares {
    ghost rule = { λ _ s. shares_rule (S.Store.meaning s) };

    fn scope(&self, store: &S) -> Scope {
        Scope::of(Reason::Misshared, store.rows(), store.classes())
    }

    fn is_broken(&self, store: &S, row: usize, class: usize) -> bool {
        let offered = u64::from(class == offered_by(store, row));
        packed_of_class(store, row, class) != u64::from(count_of(store, row, class)) + offered
    }
}

// Wherever the offered item keeps a bin below R, the position that follows has a row.
#[derive(Clone, Copy)]
pub struct GoesOn;

impl<S: Store> RuleOf<S> for GoesOn {
    ghost rule = { λ _ s. goes_on_rule (S.Store.meaning s) };

    fn scope(&self, store: &S) -> Scope {
        Scope::of(Reason::Stranded, store.rows(), store.bins())
    }

    fn is_broken(&self, store: &S, row: usize, bin: usize) -> bool {
        let raised = u32::from(load_of(store, row, bin)) + u32::from(offer_of(store, row));
        raised < u32::from(store.target())
            && next_position(store, row, bin).is_some_and(|next| next.row_in(store).is_none())
    }
}
