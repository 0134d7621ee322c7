ghost use Rattle.std.specs.Prelude.{◌≡◌, min, length};
ghost use Rattle.racks.specs.Plans.{within_limits, plan_fault, rows_need, Planned};

use crate::faults::RackFault;
use crate::plan::{Numbers, Plan};
use loads::Load;

const MOST_BINS: u32 = 32;
// The greatest depth and the greatest total.
const MOST_LOADS: u32 = 1_048_576;

impl Numbers {
    // All three are within their limits.
    fn are_within_limits(self) -> bool
        ensures { result ≡ within_limits self.bins self.depth self.total }
    {
        (1..=MOST_BINS).contains(&self.bins)
            && (1..=MOST_LOADS).contains(&self.depth)
            && (1..=MOST_LOADS).contains(&self.total)
    }

    // A plan of these numbers, where it needs so many places and is lent so many.
    fn plan(self, needed: u64, lent: usize) -> Result<Plan, RackFault>
        ensures { Planned (plan_fault self.bins self.depth self.total needed lent) self result }
    {
        if !self.are_within_limits() {
            return Err(RackFault::OutOfLimits);
        }
        if (lent as u64) < needed {
            return Err(RackFault::TooFewPlaces);
        }
        Ok(Plan { numbers: self })
    }
}

// A plan for a rows rack over these places: depth of them for each bin.
pub fn check_rows<L: Load>(numbers: Numbers, places: &[L]) -> Result<Plan, RackFault>
    ensures { Planned (plan_fault numbers.bins numbers.depth numbers.total (rows_need numbers.bins numbers.depth) (length places.now)) numbers result }
{
    let needed = u64::from(numbers.bins) * u64::from(numbers.depth);
    numbers.plan(needed, places.len())
}

// A plan for a cells rack over these places and as many numbers of next places: total of each.
pub fn check_cells<L: Load>(numbers: Numbers, places: &[L], next: &[u32]) -> Result<Plan, RackFault>
    ensures { Planned (plan_fault numbers.bins numbers.depth numbers.total numbers.total (min (length places.now) (length next.now))) numbers result }
{
    numbers.plan(u64::from(numbers.total), places.len().min(next.len()))
}
