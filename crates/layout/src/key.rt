// A position as the bytes that a file holds of it.
ghost use Rattle.std.specs.Prelude.{◌≡◌, ◌≤◌, ◌++◌, take, MatchOption};
ghost use Rattle.layout.specs.Keys.{Unspelled, NoRoom, Appended};

use certificate::limits::{MOST_BINS, MOST_CLASSES};

// The most bytes of a position: its loads and its counts.
const MOST: usize = MOST_BINS + MOST_CLASSES;

// Copied as it is, which a vector of fixed capacity is not.
#[derive(Clone, Copy)]
pub struct PositionKey {
    bytes: [u8; MOST],
    length: usize,
    ghost within: { length ≤ 40 },
}

impl PositionKey {
    // The bytes of a position; none where it is too long, or a number is above 255.
    #[tactic(auto, using(crate::proofs::Spelling::unspelled_left, crate::proofs::Spelling::unspelled_right))]
    pub fn spell(loads: &[u32], counts: &[u32]) -> Option<PositionKey>
        ensures { MatchOption result (Unspelled (loads.now ++ counts.now)) (λ k. take k.length k.bytes ≡ loads.now ++ counts.now) }
    {
        let mut key = PositionKey {
            bytes: [0; MOST],
            length: 0,
        };
        key.append(loads)?;
        key.append(counts)?;
        Some(key)
    }

    // The bytes.
    pub fn as_bytes(&self) -> &[u8]
        ensures { result.now ≡ take self.now.length self.now.bytes }
    {
        &self.bytes[0..self.length]
    }

    // Adds numbers; none where there is no room for one, or one is not a byte.
    fn append(&mut self, numbers: &[u32]) -> Option<()>
        ensures { MatchOption result (NoRoom self.old.length numbers.now) (λ _. Appended self.old.length self.old.bytes numbers.now self.new.length self.new.bytes) }
    {
        for number in numbers {
            let byte = u8::try_from(*number).ok()?;
            if self.length >= MOST {
                return None;
            }
            self.bytes[self.length] = byte;
            self.length += 1;
        }
        Some(())
    }
}
