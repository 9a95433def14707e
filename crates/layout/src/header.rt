// The first six bytes of a file, and where the parts behind them lie.
ghost use Rattle.std.specs.Prelude.{◌≡◌, ℕ, ◌+◌, ◌*◌, ◌<◌};
ghost use Rattle.layout.specs.Layout.{position_length, answer_length, body_length};

// How many bytes the header takes.
pub const HEADER_LENGTH: usize = 6;

// m, T, R, K and N.
#[derive(Clone, Copy, PartialEq, Eq, Debug)]
pub struct Header {
    pub bins: u8,
    pub capacity: u16,
    pub target: u16,
    pub classes: u8,
    pub rows: u16,
}

impl Header {
    // How many bytes a position takes: m loads and K counts.
    pub fn position_length(&self) -> usize
        ensures { result ≡ position_length self.now }
    {
        usize::from(self.bins) + usize::from(self.classes)
    }

    // How many bytes an answer takes: the class offered, and K counts for each of m packing bins.
    pub fn answer_length(&self) -> usize
        ensures { result ≡ answer_length self.now }
    {
        1 + usize::from(self.bins) * usize::from(self.classes)
    }

    // How many bytes follow the header: K sizes, N positions and N answers.
    pub fn body_length(&self) -> usize
        ensures { result ≡ body_length self.now }
    {
        let rows = usize::from(self.rows);
        usize::from(self.classes) + (rows * self.position_length() + rows * self.answer_length())
    }
}
