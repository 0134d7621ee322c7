// The slots of a rows rack: each bin has depth places of its own, used as a ring.
ghost use Rattle.std.specs.Prelude.{◌≡◌, ℕ, ◌+◌, ◌*◌, ◌<◌, ◌≤◌, slice_index};
ghost use Rattle.racks.specs.Bins.{held_in, empty_bins};
ghost use Rattle.racks.specs.Rings.{starts_of, counts_of, rows_lay};

use crate::faults::RackFault;
use crate::plan::Plan;
use crate::rings::Ring;
use crate::slots::{Sizes, Slots};

// The ring of each bin, and how many places are used in all. As many rings as bins can be: a rack takes no memory of its own.
#[derive(Drop)]
pub struct RowSlots {
    plan: Plan,
    rings: [Ring; 32],
    held: u32,
    ghost starts_within: { (b : ℕ) → b < plan.numbers.bins → slice_index (starts_of rings) b < plan.numbers.depth },
    ghost counts_within: { (b : ℕ) → b < plan.numbers.bins → slice_index (counts_of rings) b ≤ plan.numbers.depth },
    ghost sum: { held ≡ held_in (rows_lay plan.numbers.bins plan.numbers.depth (starts_of rings) (counts_of rings)) },
}

impl RowSlots {
    // Empty rows, as the plan says.
    pub fn make(plan: Plan) -> RowSlots
        ensures empty { rows_lay result.plan.numbers.bins result.plan.numbers.depth (starts_of result.rings) (counts_of result.rings) ≡ empty_bins plan.numbers.bins }
        ensures depth { result.plan.numbers.depth ≡ plan.numbers.depth }
        ensures total { result.plan.numbers.total ≡ plan.numbers.total }
        ensures room { result.plan.numbers.bins * result.plan.numbers.depth ≡ plan.numbers.bins * plan.numbers.depth }
    {
        RowSlots {
            plan,
            rings: [Ring { start: 0, count: 0 }; 32],
            held: 0,
        }
    }

    // The ring of a bin.
    fn ring(&self, bin: u32) -> Ring
        requires { bin < self.now.plan.numbers.bins }
        ensures start { result.start ≡ slice_index (starts_of self.now.rings) bin }
        ensures count { result.count ≡ slice_index (counts_of self.now.rings) bin }
    {
        self.rings[bin as usize]
    }

    // The first place of a bin's row.
    fn base(&self, bin: u32) -> u32
        requires { bin < self.now.plan.numbers.bins }
        ensures value { result ≡ bin * self.now.plan.numbers.depth }
        ensures low { result ≤ 32505856 }
    {
        bin * self.plan.numbers.depth
    }
}

impl Slots for RowSlots {
    ghost lay = { λ s. rows_lay s.plan.numbers.bins s.plan.numbers.depth (starts_of s.rings) (counts_of s.rings) };

    ghost depth = { λ s. s.plan.numbers.depth };

    ghost total = { λ s. s.plan.numbers.total };

    ghost room = { λ s. s.plan.numbers.bins * s.plan.numbers.depth };

    fn sizes(&self) -> Sizes {
        Sizes {
            numbers: self.plan.numbers,
            room: self.plan.row_places(),
        }
    }

    fn held(&self) -> u32 {
        self.held
    }

    fn holds(&self, bin: u32) -> Result<u32, RackFault> {
        self.plan.numbers.check_bin(bin)?;
        Ok(self.ring(bin).count)
    }

    fn give(&mut self, bin: u32) -> Result<u32, RackFault> {
        self.plan.numbers.check_bin(bin)?;
        let ring = self.ring(bin);
        self.plan.numbers.check_room(ring.count, self.held)?;
        let place = self.base(bin) + ring.end(self.plan.numbers.depth);
        self.rings[bin as usize].grow();
        self.held += 1;
        Ok(place)
    }

    fn free(&mut self, bin: u32) -> Result<Option<u32>, RackFault> {
        self.plan.numbers.check_bin(bin)?;
        let ring = self.ring(bin);
        if ring.count == 0 {
            return Ok(None);
        }
        let place = self.base(bin) + ring.start;
        self.rings[bin as usize].shrink(self.plan.numbers.depth);
        self.held -= 1;
        Ok(Some(place))
    }
}
