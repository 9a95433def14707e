// A file whose header and length are right, so that each part of each row can be read.
ghost use Rattle.std.specs.Prelude.{◌≡◌, ℕ, ◌+◌, ◌*◌, ◌≤◌, vec_len, MatchResult};
ghost use Rattle.layout.specs.Layout.{header_of, header_length, body_length, byte, frame_rules, certificate_of};
ghost use Rattle.certificate.specs.Certificates.{row_count};
ghost use Rattle.certificate.specs.Lawful.{most_bins, most_capacity, most_classes, most_rows, most_count};
ghost use Rattle.files.specs.Opening.{told, opened};

use certificate::refused::Refused;
use layout::header::Header;
use layout::read::read_header;

mod keyed;
mod questions;

#[derive(Drop)]
pub struct RowFile {
    header: Header,
    bytes: Vec<u8>,
    ghost read: { header ≡ header_of bytes.items },
    ghost counted: { header.rows ≡ row_count (certificate_of bytes.items) },
    ghost long: { vec_len bytes ≡ header_length + body_length header },
    ghost some_bins: { (2 ≤ header.bins) × (header.bins ≤ most_bins) },
    ghost some_capacity: { (1 ≤ header.capacity) × (header.capacity ≤ most_capacity) },
    ghost target_range: { (header.capacity + 1 ≤ header.target) × (header.target ≤ 2 * header.capacity) },
    ghost some_classes: { (1 ≤ header.classes) × (header.classes ≤ most_classes) },
    ghost some_rows: { (1 ≤ header.rows) × (header.rows ≤ most_rows) },
    ghost small: { (i : ℕ) → byte bytes.items i ≤ most_count },
}

impl RowFile {
    // Numbers 1 to 7.
    pub fn open(bytes: Vec<u8>) -> Result<RowFile, Refused>
        ensures answer { told (λ f. certificate_of f.bytes.items) result ≡ opened (frame_rules bytes.items) bytes.items }
        ensures holds { MatchResult result (λ f. f.bytes ≡ bytes) (λ e. e.bytes ≡ bytes) }
    {
        match read_header(&bytes) {
            Ok(header) => Ok(RowFile { header, bytes }),
            Err(fault) => Err(Refused { fault, bytes }),
        }
    }

    // The file's bytes.
    pub fn into_bytes(self) -> Vec<u8>
        ensures { result ≡ self.bytes }
    {
        let RowFile { header: _, bytes } = self;
        bytes
    }
}
