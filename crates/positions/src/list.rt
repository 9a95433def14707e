// A short list of numbers on the stack: the loads or the counts of a position.
ghost use Rattle.std.specs.Prelude.{◌≡◌, ◌≤◌, length, take, replicate};

use certificate::limits::MOST_CLASSES;

// The most counts of a position, 32, which is more than its most loads, 8.
const MOST: usize = MOST_CLASSES;

// Copied as it is, which a vector of fixed capacity is not.
#[derive(Clone, Copy)]
pub struct Numbers {
    items: [u32; MOST],
    length: usize,
    ghost within: { length ≤ 32 },
}

impl Numbers {
    // These numbers.
    pub(crate) fn of(numbers: &[u32]) -> Numbers
        requires { length numbers.now ≤ 32 }
        ensures { take result.length result.items ≡ numbers.now }
    {
        let mut items = [0; MOST];
        items[0..numbers.len()].copy_from_slice(numbers);
        Numbers {
            items,
            length: numbers.len(),
        }
    }

    // So many zeros.
    pub(crate) fn zeros(count: usize) -> Numbers
        requires { count ≤ 32 }
        ensures { take result.length result.items ≡ replicate count 0 }
    {
        Numbers {
            items: [0; MOST],
            length: count,
        }
    }

    pub fn as_slice(&self) -> &[u32]
        ensures { result.now ≡ take self.now.length self.now.items }
    {
        &self.items[0..self.length]
    }

    pub fn len(&self) -> usize
        ensures { result ≡ self.now.length }
    {
        self.length
    }
}
