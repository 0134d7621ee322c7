// The slots of a cells rack: any free place serves any bin, and each place has the number of the next one of its list.
ghost use Rattle.std.specs.Prelude.{◌≡◌, ℕ, ◌+◌, ◌-◌, ◌<◌, ◌≤◌, length, replicate, ◌≢◌, slice_index, slice_set};
ghost use Rattle.racks.specs.Bins.{held_in, empty_bins};
ghost use Rattle.racks.specs.Chains.{firsts_of, lasts_of, counts_of, chain_of, cells_lay, Once, Inside, Ends, Moved};

use crate::chains::Chain;
use crate::faults::RackFault;
use crate::plan::{Numbers, Plan};
use crate::slots::{Sizes, Slots};

// A chain for each bin, and after theirs that of the free places. No place is in two, and all together have every
// place. The next places stand in a list that is lent, as the loads do: a rack takes no memory of its own.
#[derive(Drop)]
pub struct CellSlots<'a> {
    numbers: Numbers,
    next: &'a mut [u32],
    chains: [Chain; 33],
    ghost few_bins: { numbers.bins ≤ 32 },
    ghost low_total: { numbers.total ≤ 1048576 },
    ghost next_long: { numbers.total ≤ length next.now },
    ghost once: { Once (cells_lay (numbers.bins + 1) next.now (firsts_of chains) (counts_of chains)) },
    ghost inside: { Inside numbers.total (cells_lay (numbers.bins + 1) next.now (firsts_of chains) (counts_of chains)) },
    ghost ends: { Ends (numbers.bins + 1) next.now (firsts_of chains) (lasts_of chains) (counts_of chains) },
    ghost sum: { held_in (cells_lay (numbers.bins + 1) next.now (firsts_of chains) (counts_of chains)) ≡ numbers.total },
}

// The total, where the list of next places is long enough for it.
fn served(total: u32, next: &[u32]) -> u32
    ensures whole { total ≤ length next.now → result ≡ total }
    ensures low { result ≤ total }
    ensures long { result ≤ length next.now }
{
    if total as usize <= next.len() {
        total
    } else {
        0
    }
}

// Each place names the one after it.
fn link(next: &mut [u32], total: u32)
    requires { (total ≤ length next.old) × (total ≤ 1048576) }
    ensures { (k : ℕ) → k < total → slice_index next.new k ≡ k + 1 }
{
    for (place, after) in next[..total as usize].iter_mut().enumerate() {
        *after = place as u32 + 1;
    }
}

// The chains of a new store: every place is free.
fn all_free(bins: u32, total: u32) -> [Chain; 33]
    requires { bins ≤ 32 }
    ensures firsts { firsts_of result ≡ replicate 33 0 }
    ensures lasts { lasts_of result ≡ slice_set (replicate 33 0) bins (total - 1) }
    ensures counts { counts_of result ≡ slice_set (replicate 33 0) bins total }
{
    let mut chains = [Chain {
        first: 0,
        last: 0,
        count: 0,
    }; 33];
    chains[bins as usize] = Chain {
        first: 0,
        last: total.saturating_sub(1),
        count: total,
    };
    chains
}

impl<'a> CellSlots<'a> {
    // Empty cells, as the plan says. Where next is shorter than was checked, no place serves.
    pub fn make(plan: Plan, next: &'a mut [u32]) -> CellSlots<'a>
        ensures empty { cells_lay result.numbers.bins result.next.now (firsts_of result.chains) (counts_of result.chains) ≡ empty_bins plan.numbers.bins }
        ensures depth { result.numbers.depth ≡ plan.numbers.depth }
        ensures total { plan.numbers.total ≤ length next.old → result.numbers.total ≡ plan.numbers.total }
    {
        let total = served(plan.numbers.total, next);
        link(next, total);
        CellSlots {
            numbers: Numbers {
                total,
                ..plan.numbers
            },
            next,
            chains: all_free(plan.numbers.bins, total),
        }
    }

    // A bin's chain, or that of the free places.
    fn chain(&self, list: u32) -> Chain
        requires { list ≤ self.now.numbers.bins }
        ensures first { result.first ≡ slice_index (firsts_of self.now.chains) list }
        ensures last { result.last ≡ slice_index (lasts_of self.now.chains) list }
        ensures count { result.count ≡ slice_index (counts_of self.now.chains) list }
    {
        self.chains[list as usize]
    }

    // The number of the chain of the free places.
    fn free_list(&self) -> u32
        ensures { result ≡ self.now.numbers.bins }
    {
        self.numbers.bins
    }

    // The first place of one chain goes to the end of another.
    fn shift(&mut self, from: u32, to: u32) -> u32
        requires { (from ≤ self.old.numbers.bins) × ((to ≤ self.old.numbers.bins) × (((from ≢ to)) × (0 < slice_index (counts_of self.old.chains) from))) }
        ensures moved { Moved (self.old.numbers.bins + 1) (chain_of self.old.next.now (firsts_of self.old.chains) (counts_of self.old.chains)) (chain_of self.new.next.now (firsts_of self.new.chains) (counts_of self.new.chains)) from to result }
        ensures numbers { self.new.numbers ≡ self.old.numbers }
    {
        let place = self.chain(from).first;
        let after = self.next[place as usize];
        let taker = self.chain(to);
        if taker.count == 0 {
            self.chains[from as usize].leave(after);
            self.chains[to as usize].start(place);
            return place;
        }
        self.next[taker.last as usize] = place;
        self.chains[from as usize].leave(after);
        self.chains[to as usize].join(place);
        place
    }
}

impl<'a> Slots for CellSlots<'a> {
    ghost lay = { λ s. cells_lay s.numbers.bins s.next.now (firsts_of s.chains) (counts_of s.chains) };

    ghost depth = { λ s. s.numbers.depth };

    ghost total = { λ s. s.numbers.total };

    ghost room = { λ s. s.numbers.total };

    fn sizes(&self) -> Sizes {
        Sizes {
            numbers: self.numbers,
            room: self.numbers.total,
        }
    }

    fn held(&self) -> u32 {
        self.numbers.total - self.chain(self.free_list()).count
    }

    fn holds(&self, bin: u32) -> Result<u32, RackFault> {
        self.numbers.check_bin(bin)?;
        Ok(self.chain(bin).count)
    }

    fn give(&mut self, bin: u32) -> Result<u32, RackFault> {
        self.numbers.check_bin(bin)?;
        self.numbers.check_room(self.chain(bin).count, self.held())?;
        let free = self.free_list();
        Ok(self.shift(free, bin))
    }

    fn free(&mut self, bin: u32) -> Result<Option<u32>, RackFault> {
        self.numbers.check_bin(bin)?;
        if self.chain(bin).count == 0 {
            return Ok(None);
        }
        let free = self.free_list();
        Ok(Some(self.shift(bin, free)))
    }
}
