// The rows of a file by their positions, which need not be in order.
ghost use Rattle.certificate.specs.Certificates.{row_count, position};
ghost use Rattle.files.specs.RowFiles.{meant};

use super::RowFile;
use search::KeyedRows;

impl KeyedRows for RowFile {
    ghost rows = { λ f. row_count (meant f) };

    ghost key = { λ f. position (meant f) };

    fn len(&self) -> usize {
        self.rows()
    }

    fn key(&self, row: usize) -> &[u8] {
        self.position(row)
    }
}
