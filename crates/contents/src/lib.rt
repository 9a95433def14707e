// What the rows of a file hold: numbers 8 to 10.
#![tactic(auto)]

ghost use Rattle.std.specs.Prelude.{◌≡◌};
ghost use Rattle.certificate.specs.Rules.{judge_all};
ghost use Rattle.certificate.specs.Contents.{sizes_rule, loads_rule, offers_rule, contents_rules};
ghost use Rattle.files.specs.RowFiles.{meant};

use certificate::fault::Fault;
use certificate::reason::Reason;
use certificate::rule::{RuleOf, Scope, judge};
use files::row_file::RowFile;

// Sizes ascend strictly within 1 to T.
#[derive(Clone, Copy)]
pub struct SizesAscend;

impl RuleOf<RowFile> for SizesAscend {
    ghost rule = { λ _ f. sizes_rule (meant f) };

    fn scope(&self, file: &RowFile) -> Scope {
        Scope::of(Reason::Size, file.classes(), 1)
    }

    fn is_broken(&self, file: &RowFile, class: usize, _place: usize) -> bool {
        let size = file.size(class).unwrap_or(0);
        let before = if class == 0 {
            0
        } else {
            file.size(class - 1).unwrap_or(0)
        };
        size <= before || size > file.capacity()
    }
}

// Every load is below R.
#[derive(Clone, Copy)]
pub struct LoadsBelowTarget;

impl RuleOf<RowFile> for LoadsBelowTarget {
    ghost rule = { λ _ f. loads_rule (meant f) };

    fn scope(&self, file: &RowFile) -> Scope {
        Scope::of(Reason::Load, file.rows(), file.bins())
    }

    fn is_broken(&self, file: &RowFile, row: usize, bin: usize) -> bool {
        file.load(row, bin).unwrap_or(0) >= file.target()
    }
}

// Every offered class is below K.
#[derive(Clone, Copy)]
pub struct OffersKnown;

impl RuleOf<RowFile> for OffersKnown {
    ghost rule = { λ _ f. offers_rule (meant f) };

    fn scope(&self, file: &RowFile) -> Scope {
        Scope::of(Reason::Offer, file.rows(), 1)
    }

    fn is_broken(&self, file: &RowFile, row: usize, _place: usize) -> bool {
        file.offered(row).unwrap_or(0) >= file.classes()
    }
}

// Numbers 8 to 10, each over the whole file.
pub fn contents_hold(file: &RowFile) -> Result<(), Fault>
    ensures { result ≡ judge_all (contents_rules (meant file.now)) }
{
    judge(&SizesAscend, file)?;
    judge(&LoadsBelowTarget, file)?;
    judge(&OffersKnown, file)
}
