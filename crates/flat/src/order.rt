// What the rows of a flat table keep: numbers 8 to 11.
ghost use Rattle.std.specs.Prelude.{◌≡◌};
ghost use Rattle.certificate.specs.Rules.{judge_all};
ghost use Rattle.files.specs.RowFiles.{meant};
ghost use Rattle.flat.specs.Flat.{table_rules};

use certificate::fault::Fault;
use certificate::reason::Reason;
use certificate::rule::judge;
use contents::contents_hold;
use files::row_file::RowFile;
use search::KeysAscend;

// Numbers 8 to 11, each over the whole file.
pub fn rows_hold(file: &RowFile) -> Result<(), Fault>
    ensures { result ≡ judge_all (table_rules (meant file.now)) }
{
    contents_hold(file)?;
    judge(&KeysAscend(Reason::PositionOrder), file)
}
