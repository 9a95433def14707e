// The item beside a match.
ghost use Rattle.std.specs.Prelude.{◌≡◌};

use super::Item;

impl Item {
    // The size that is still owed; 0 once the item is spent.
    pub fn size(&self) -> u16
        ensures { result ≡ self.now.size }
    {
        self.size
    }
}
