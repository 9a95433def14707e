// What a file answers about its rows: none about a missing row, bin or class.
ghost use Rattle.std.specs.Prelude.{◌≡◌, ◌+◌, ◌<◌, ◌≤◌, vec_len};
ghost use Rattle.layout.specs.Layout.{position_length, answer_length, position_start, answer_start, packed_start, byte as byte_at};
ghost use Rattle.certificate.specs.Certificates.{class_count, row_count, position as position_of, size as type_size, load as load_of, count as count_of, offered as offered_of, packed as packed_of, size_at, load_at, count_at, offered_at, packed_at};
ghost use Rattle.files.specs.RowFiles.{meant};

use super::RowFile;
use layout::header::HEADER_LENGTH;

impl RowFile {
    pub fn bins(&self) -> usize
        ensures { result ≡ (meant self.now).bins }
    {
        usize::from(self.header.bins)
    }

    pub fn capacity(&self) -> u16
        ensures { result ≡ (meant self.now).capacity }
    {
        self.header.capacity
    }

    pub fn target(&self) -> u16
        ensures { result ≡ (meant self.now).target }
    {
        self.header.target
    }

    pub fn classes(&self) -> usize
        ensures { result ≡ class_count (meant self.now) }
    {
        usize::from(self.header.classes)
    }

    pub fn rows(&self) -> usize
        ensures { result ≡ row_count (meant self.now) }
    {
        usize::from(self.header.rows)
    }

    // The bytes of a row's position, none of a missing row.
    #[tactic(auto, using(layout::proofs::Meanings::no_position, layout::proofs::Meanings::position_is))]
    pub fn position(&self, row: usize) -> &[u8]
        ensures { result.now ≡ position_of (meant self.now) row }
    {
        if row >= self.rows() {
            return &[];
        }
        let start = self.position_start(row);
        let bytes = self.bytes.as_slice();
        &bytes[start..start + self.header.position_length()]
    }

    pub fn size(&self, class: usize) -> Option<u16>
        ensures { result ≡ size_at (meant self.now) class }
    {
        (class < self.classes()).then(|| self.size_there(class))
    }

    pub fn load(&self, row: usize, bin: usize) -> Option<u16>
        ensures { result ≡ load_at (meant self.now) row bin }
    {
        (row < self.rows() && bin < self.bins()).then(|| self.load_there(row, bin))
    }

    pub fn count(&self, row: usize, class: usize) -> Option<u16>
        ensures { result ≡ count_at (meant self.now) row class }
    {
        (row < self.rows() && class < self.classes()).then(|| self.count_there(row, class))
    }

    pub fn offered(&self, row: usize) -> Option<usize>
        ensures { result ≡ offered_at (meant self.now) row }
    {
        (row < self.rows()).then(|| self.offered_there(row))
    }

    pub fn packed(&self, row: usize, bin: usize, class: usize) -> Option<u16>
        ensures { result ≡ packed_at (meant self.now) row bin class }
    {
        (row < self.rows() && bin < self.bins() && class < self.classes()).then(
            || self.packed_there(row, bin, class),
        )
    }

    // The size of a class that is there, and so on for each question.
    #[tactic(auto, using(layout::proofs::Questions::size_there))]
    fn size_there(&self, class: usize) -> u16
        requires { class < self.now.header.classes }
        ensures { result ≡ type_size (meant self.now) class }
    {
        self.byte(HEADER_LENGTH + class)
    }

    #[tactic(auto, using(layout::proofs::Questions::load_there))]
    fn load_there(&self, row: usize, bin: usize) -> u16
        requires row { row < self.now.header.rows }
        requires bin { bin < self.now.header.bins }
        ensures { result ≡ load_of (meant self.now) row bin }
    {
        self.byte(self.position_start(row) + bin)
    }

    #[tactic(auto, using(layout::proofs::Questions::count_there))]
    fn count_there(&self, row: usize, class: usize) -> u16
        requires row { row < self.now.header.rows }
        requires class { class < self.now.header.classes }
        ensures { result ≡ count_of (meant self.now) row class }
    {
        self.byte(self.position_start(row) + usize::from(self.header.bins) + class)
    }

    #[tactic(auto, using(layout::proofs::Questions::offered_there))]
    fn offered_there(&self, row: usize) -> usize
        requires { row < self.now.header.rows }
        ensures { result ≡ offered_of (meant self.now) row }
    {
        usize::from(self.byte(self.answer_start(row)))
    }

    #[tactic(auto, using(layout::proofs::Questions::packed_there))]
    fn packed_there(&self, row: usize, bin: usize, class: usize) -> u16
        requires row { row < self.now.header.rows }
        requires bin { bin < self.now.header.bins }
        requires class { class < self.now.header.classes }
        ensures { result ≡ packed_of (meant self.now) row bin class }
    {
        self.byte(self.packed_start(row, bin) + class)
    }

    // Where the position of a row starts.
    #[tactic(auto, using(layout::proofs::Offsets::position_within))]
    fn position_start(&self, row: usize) -> usize
        requires { row < self.now.header.rows }
        ensures value { result ≡ position_start self.now.header row }
        ensures within { result + position_length self.now.header ≤ vec_len self.now.bytes }
    {
        HEADER_LENGTH + usize::from(self.header.classes) + row * self.header.position_length()
    }

    // Where the answer of a row starts.
    #[tactic(auto, using(layout::proofs::Offsets::answer_within))]
    fn answer_start(&self, row: usize) -> usize
        requires { row < self.now.header.rows }
        ensures value { result ≡ answer_start self.now.header row }
        ensures within { result + answer_length self.now.header ≤ vec_len self.now.bytes }
    {
        let header = self.header;
        HEADER_LENGTH
            + usize::from(header.classes)
            + usize::from(header.rows) * header.position_length()
            + row * header.answer_length()
    }

    // Where the counts of a packing bin start.
    #[tactic(auto, using(layout::proofs::Offsets::packed_within))]
    fn packed_start(&self, row: usize, bin: usize) -> usize
        requires row { row < self.now.header.rows }
        requires bin { bin < self.now.header.bins }
        ensures value { result ≡ packed_start self.now.header row bin }
        ensures within { result + self.now.header.classes ≤ vec_len self.now.bytes }
    {
        self.answer_start(row) + 1 + bin * usize::from(self.header.classes)
    }

    fn byte(&self, at: usize) -> u16
        requires { at < vec_len self.now.bytes }
        ensures value { result ≡ byte_at self.now.bytes.items at }
        ensures small { result < 256 }
    {
        u16::from(self.bytes[at])
    }
}
