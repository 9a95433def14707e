// Opening a flat table: numbers 1 to 11.
ghost use Rattle.std.specs.Prelude.{◌≡◌, IfErr};
ghost use Rattle.certificate.specs.Least.{Judges};
ghost use Rattle.files.specs.Opening.{told, opened};
ghost use Rattle.flat.specs.Flat.{flat_rules};
ghost use Rattle.flat.specs.Tables.{table_meant};

use crate::flat_table::FlatTable;
use crate::order::rows_hold;
use certificate::refused::Refused;
use files::row_file::RowFile;

impl FlatTable {
    // The table that the bytes say, or their least fault and the bytes back.
    pub fn open(bytes: Vec<u8>) -> Result<FlatTable, Refused>
        ensures answer { told table_meant result ≡ opened (flat_rules bytes.items) bytes.items }
        ensures least { Judges (flat_rules bytes.items) (told table_meant result) }
        ensures kept { IfErr result (λ e. e.bytes ≡ bytes) }
    {
        let file = RowFile::open(bytes)?;
        match rows_hold(&file) {
            Ok(()) => Ok(FlatTable { file }),
            Err(fault) => Err(Refused {
                fault,
                bytes: file.into_bytes(),
            }),
        }
    }
}
