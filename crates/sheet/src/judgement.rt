// A certificate file opened as a flat table and checked.
ghost use Rattle.std.specs.Prelude.{◌≡◌, IfOk, OnOk};
ghost use Rattle.layout.specs.Layout.{certificate_of};
ghost use Rattle.plan.specs.Winning.{Forced, ForcedWithin};
ghost use Rattle.sheet.specs.Judging.{JudgedAs};
ghost use Rattle.sheet.specs.Sheet.{judgement};

use certificate::fault::Fault;
use flat::FlatTable;
use plan::check::check;
use plan::verdict::Verdict;

// An accepted table and its verdict.
#[derive(Drop)]
pub struct Checked {
    pub table: FlatTable,
    pub verdict: Verdict,
}

// The table and the verdict of a file, or the fault that opening or checking found.
pub fn checked_file(file: Vec<u8>) -> Result<Checked, Fault>
    ensures answer { JudgedAs file.items result }
    ensures forces { OnOk result (Forced (certificate_of file.items)) }
    ensures within { IfOk result (λ k. ForcedWithin k.verdict.bound (certificate_of file.items)) }
{
    let table = FlatTable::open(file)?;
    let verdict = check(&table)?;
    Ok(Checked { table, verdict })
}

// The verdict on a file, or the fault that opening or checking found.
pub fn judge_file(file: Vec<u8>) -> Result<Verdict, Fault>
    ensures answer { result ≡ judgement file.items }
    ensures forces { OnOk result (Forced (certificate_of file.items)) }
    ensures within { IfOk result (λ v. ForcedWithin v.bound (certificate_of file.items)) }
{
    let checked = checked_file(file)?;
    Ok(checked.verdict)
}
