ghost use Rattle.std.specs.Prelude.{◌≡◌, ℕ, List, length};
ghost use Rattle.racks.specs.Bins.{is_empty, put_of, take_of, count_of};

use crate::faults::RackFault;
use loads::Load;

// A store of loads in numbered bins, the queues of the field. Its meaning is the list of its bins, each a list of
// loads with the oldest first; its depth, the most loads in one bin; and its total, the most in all. Each call's
// answer and next bins are the definitions' of it, so a refused call changes nothing.
pub trait Rack {
    type Item: Load;

    ghost bins: { Self → List (List Self.Item) };

    ghost depth: { Self → ℕ };

    ghost total: { Self → ℕ };

    // Adds a load at the end of a bin.
    fn put(&mut self, bin: u32, load: Self::Item) -> Result<(), RackFault>
        ensures answer { result ≡ (put_of (bins self.old) (depth self.old) (total self.old) bin load).0 }
        ensures next { bins self.new ≡ (put_of (bins self.old) (depth self.old) (total self.old) bin load).1 }
        ensures count { length (bins self.new) ≡ length (bins self.old) }
        ensures depth { depth self.new ≡ depth self.old }
        ensures total { total self.new ≡ total self.old };

    // Removes and gives the oldest load of a bin, or none.
    fn take(&mut self, bin: u32) -> Result<Option<Self::Item>, RackFault>
        ensures answer { result ≡ (take_of (bins self.old) bin).0 }
        ensures next { bins self.new ≡ (take_of (bins self.old) bin).1 }
        ensures count { length (bins self.new) ≡ length (bins self.old) }
        ensures depth { depth self.new ≡ depth self.old }
        ensures total { total self.new ≡ total self.old };

    // How many loads a bin holds.
    fn count(&self, bin: u32) -> Result<u32, RackFault>
        ensures { result ≡ count_of (bins self.now) bin };

    // The number of bins.
    fn bin_count(&self) -> u32
        ensures { result ≡ length (bins self.now) };

    fn depth(&self) -> u32
        ensures { result ≡ depth self.now };

    fn total(&self) -> u32
        ensures { result ≡ total self.now };

    // No bin holds a load.
    fn is_empty(&self) -> bool
        ensures { result ≡ is_empty (bins self.now) };
}
