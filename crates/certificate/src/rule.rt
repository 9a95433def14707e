// Rules that are tried place by place, and the one loop that tries them.
ghost use Rattle.std.specs.Prelude.{◌≡◌, ℕ, ◌<◌};
ghost use Rattle.certificate.specs.Faults.{number_of};
ghost use Rattle.certificate.specs.Rules.{Rule, judged, first};
ghost use Rattle.certificate.specs.Scopes.{scope_of};

use crate::fault::Fault;
use crate::reason::Reason;

// A rule's number, how many rows it is tried on, and how many places of each row.
#[derive(Clone, Copy, PartialEq, Eq, Debug)]
pub struct Scope {
    pub number: u8,
    pub rows: usize,
    pub places: usize,
}

impl Scope {
    // Where the rule of a reason is tried.
    pub fn of(reason: Reason, rows: usize, places: usize) -> Scope
        ensures { result ≡ record { number = number_of reason; rows = rows; places = places } }
    {
        Scope::new(reason.number(), rows, places)
    }

    pub fn new(number: u8, rows: usize, places: usize) -> Scope
        ensures { result ≡ record { number = number; rows = rows; places = places } }
    {
        Scope {
            number,
            rows,
            places,
        }
    }
}

// A rule of subjects `S`: where it is tried, and what breaks it.
pub trait RuleOf<S> {
    ghost rule: { Self → S → Rule };

    // One line in each rule, alike but for its reason and its range, which is what a rule has to say.
    fn scope(&self, subject: &S) -> Scope
        ensures { result ≡ scope_of (rule self.now subject.now) };

    fn is_broken(&self, subject: &S, row: usize, place: usize) -> bool
        requires row { row < (rule self.now subject.now).rows }
        requires place { place < (rule self.now subject.now).places }
        ensures { result ≡ (rule self.now subject.now).broken row place };
}

// The first place of a row that breaks the rule.
fn first_in_row<S, R: RuleOf<S>>(rule: &R, subject: &S, row: usize, places: usize) -> Option<usize>
    requires row { row < (R.RuleOf.rule rule.now subject.now).rows }
    requires places { places ≡ (R.RuleOf.rule rule.now subject.now).places }
    ensures { result ≡ first ((R.RuleOf.rule rule.now subject.now).broken row) places }
{
    (0..places).find(|place| rule.is_broken(subject, row, *place))
}

// Passes, or names the rule's first broken place: lowest row first, then lowest place.
pub fn judge<S, R: RuleOf<S>>(rule: &R, subject: &S) -> Result<(), Fault>
    ensures { result ≡ judged (R.RuleOf.rule rule.now subject.now) }
{
    let scope = rule.scope(subject);
    // a `for`: a chain that answers a fault with both places is no plainer
    for row in 0..scope.rows {
        if let Some(place) = first_in_row(rule, subject, row, scope.places) {
            return Err(Fault {
                number: scope.number,
                first: row,
                second: place,
            });
        }
    }
    Ok(())
}
