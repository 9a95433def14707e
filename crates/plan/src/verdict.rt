// What is said of an accepted certificate.
ghost use Rattle.std.specs.Prelude.{Some};
ghost use Rattle.plan.specs.Plan.{verdict_text};

use std::fmt;

// How many rows it has, and the most items that its plan can need.
#[derive(Clone, Copy, PartialEq, Eq, Debug)]
pub struct Verdict {
    pub rows: usize,
    pub bound: usize,
}

// The rows and the bound, as the sheet prints them.
impl fmt::Display for Verdict {
    ghost output = { λ v. Some (verdict_text v) };

    fn fmt<W: fmt::Write>(&self, f: &mut fmt::Formatter<W>) -> fmt::Result {
        let Verdict { rows, bound } = *self;
        write!(f, "{rows} {bound}")
    }
}
