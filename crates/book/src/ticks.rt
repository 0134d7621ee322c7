ghost use Rattle.std.specs.Prelude.{◌≡◌, ℕ, ◌+◌, ◌-◌, ◌*◌, ◌^◌, ◌<◌, ◌≤◌, Bool, ◌&&◌, IfOk};
ghost use Rattle.book.specs.Ticks.{shift, bins_answer, Fewest};

use crate::faults::BookFault;

// The last tick of a clock, 2^40 - 1.
pub const LAST_TICK: u64 = 1_099_511_627_775;
// The cycle of the fastest class is at least this.
pub const SHORTEST_CYCLE: u32 = 2_000;

pub const LONGEST_CYCLE: u32 = 1_048_576;
// The longest hand-over delay that can be set.
pub const LONGEST_DELAY: u32 = 65_535;

// How many cycles after its input cycle a frame leaves: late enough for the last hand-over.
pub fn shift(delay: u32, cycle: u32, phase: u32) -> u64
    ensures { result ≡ shift delay cycle phase }
{
    let last = u64::from(phase) + u64::from(delay) + u64::from(cycle.saturating_sub(1));
    1 + last.checked_div(u64::from(cycle)).unwrap_or(0)
}

// The bins that a class needs for an input: one more than the shift.
pub fn bins_needed(delay: u32, cycle: u32, phase: u32) -> Result<u32, BookFault>
    ensures answer { result ≡ bins_answer delay cycle phase }
    ensures fewest { IfOk result (λ bins. Fewest delay cycle phase bins) }
{
    if delay > LONGEST_DELAY
        || !(SHORTEST_CYCLE..=LONGEST_CYCLE).contains(&cycle)
        || phase >= cycle
    {
        return Err(BookFault::OutOfLimits);
    }
    Ok(shift(delay, cycle, phase) as u32 + 1)
}
