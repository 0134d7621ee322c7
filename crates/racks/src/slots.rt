ghost use Rattle.std.specs.Prelude.{◌≡◌, ℕ, ◌<◌, ◌≤◌, ◌||◌, true, false, List, length, IfOk, IfErr, nat_le};
ghost use Rattle.racks.specs.declared.faults.RackFault.TheVariants.{NotThere, Full};
ghost use Rattle.racks.specs.Bins.{held_in, take_of, count_of};
ghost use Rattle.racks.specs.Places.{Within, Given};

use crate::faults::RackFault;
use crate::plan::Numbers;

// The numbers of a store, and its room, the places that it names at most.
#[derive(Clone, Copy)]
pub struct Sizes {
    pub numbers: Numbers,
    pub room: u32,
}

impl Numbers {
    // Refuses a bin that is not there.
    pub(crate) fn check_bin(&self, bin: u32) -> Result<(), RackFault>
        ensures there { IfOk result (λ _. bin < self.now.bins) }
        ensures missing { IfErr result (λ e. (e ≡ NotThere) × (self.now.bins ≤ bin)) }
    {
        if bin < self.bins {
            Ok(())
        } else {
            Err(RackFault::NotThere)
        }
    }

    // Refuses one more load where its bin, or all bins together, hold as many as they may.
    pub(crate) fn check_room(&self, in_bin: u32, in_all: u32) -> Result<(), RackFault>
        ensures room { IfOk result (λ _. (nat_le self.now.depth in_bin || nat_le self.now.total in_all) ≡ false) }
        ensures full { IfErr result (λ e. (e ≡ Full) × ((nat_le self.now.depth in_bin || nat_le self.now.total in_all) ≡ true)) }
    {
        if self.depth <= in_bin || self.total <= in_all {
            Err(RackFault::Full)
        } else {
            Ok(())
        }
    }
}

// Which places hold the loads of which bin, with no loads in it. Its meaning is the lay: for each bin the numbers of
// its places, oldest first. So it is a rack of place numbers, and the calls below are a rack's.
pub trait Slots {
    ghost lay: { Self → List (List ℕ) };

    ghost depth: { Self → ℕ };

    ghost total: { Self → ℕ };

    ghost room: { Self → ℕ };

    fn sizes(&self) -> Sizes
        ensures bins { result.numbers.bins ≡ length (lay self.now) }
        ensures depth { result.numbers.depth ≡ depth self.now }
        ensures total { result.numbers.total ≡ total self.now }
        ensures room { result.room ≡ room self.now }
        ensures within { Within (room self.now) (lay self.now) };

    // How many places are in use, in all bins.
    fn held(&self) -> u32
        ensures { result ≡ held_in (lay self.now) };

    // How many places a bin has.
    fn holds(&self, bin: u32) -> Result<u32, RackFault>
        ensures { result ≡ count_of (lay self.now) bin };

    // Names a free place, which is then the newest of the bin.
    fn give(&mut self, bin: u32) -> Result<u32, RackFault>
        ensures given { Given (lay self.old) (depth self.old) (total self.old) (room self.old) bin result (lay self.new) }
        ensures depth { depth self.new ≡ depth self.old }
        ensures total { total self.new ≡ total self.old }
        ensures room { room self.new ≡ room self.old };

    // Frees the oldest place of a bin and names it, if there is one.
    fn free(&mut self, bin: u32) -> Result<Option<u32>, RackFault>
        ensures answer { result ≡ (take_of (lay self.old) bin).0 }
        ensures next { lay self.new ≡ (take_of (lay self.old) bin).1 }
        ensures depth { depth self.new ≡ depth self.old }
        ensures total { total self.new ≡ total self.old }
        ensures room { room self.new ≡ room self.old };
}
