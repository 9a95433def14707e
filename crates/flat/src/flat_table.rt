// A table whose file keeps numbers 1 to 11.
ghost use Rattle.std.specs.Prelude.{◌≡◌, true, is_ok};
ghost use Rattle.certificate.specs.Rules.{judge_all};
ghost use Rattle.files.specs.RowFiles.{meant};
ghost use Rattle.flat.specs.Flat.{table_rules};

use files::row_file::RowFile;

#[derive(Drop)]
pub struct FlatTable {
    pub(crate) file: RowFile,
    ghost sound: { is_ok (judge_all (table_rules (meant file))) ≡ true },
}
