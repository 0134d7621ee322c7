// What the benchmark times: ten million pairs of a put and a take over 32 bins, on each rack; see bench/.
// Alone it prints what was taken, so that no call can be left out; with the word `time` the nanoseconds of each as well.
#![tactic(auto)]

use loads::marks::Mark;
use racks::cells::CellSlots;
use racks::faults::RackFault;
use racks::plan::{Numbers, check_cells, check_rows};
use racks::rack::Rack;
use racks::rows::RowSlots;
use racks::store::Store;
use std::time::{Duration, Instant};
use std::{env, io};

const PAIRS: u32 = 10_000_000;

const BINS: u32 = 32;

const DEPTH: u32 = 64;

const PLACES: usize = 2_048;
// Each bin has so many loads when the pairs begin.
const LOADS_FIRST: u32 = 8;

const NUMBERS: Numbers = Numbers {
    bins: BINS,
    depth: DEPTH,
    total: PLACES as u32,
};

// The sum of the buffer numbers taken. Puts go around the bins, and takes half a round behind.
fn pairs<R: Rack<Item = Mark>>(rack: &mut R, count: u32) -> u64 {
    for i in 0..BINS * LOADS_FIRST {
        let _ = rack.put(i % BINS, Mark::new(1, 64, i));
    }
    let mut sum = 0u64;
    for i in 0..count {
        let _ = rack.put(i % BINS, Mark::new(1, 64, i));
        if let Ok(Some(mark)) = rack.take((i ^ 16) % BINS) {
            sum = sum.wrapping_add(u64::from(mark.buffer()));
        }
    }
    sum
}

// The two racks borrow what stands here, and in places of their own, so that each has a function.
fn rows(count: u32) -> Result<u64, RackFault> {
    let mut places = [Mark::new(0, 64, 0); PLACES];
    let mut slots = RowSlots::make(check_rows(NUMBERS, &places)?);
    let mut rack = Store::over(&mut places, &mut slots);
    Ok(pairs(&mut rack, count))
}

fn cells(count: u32) -> Result<u64, RackFault> {
    let mut places = [Mark::new(0, 64, 0); PLACES];
    let mut next = [0; PLACES];
    let plan = check_cells(NUMBERS, &places, &next)?;
    let mut slots = CellSlots::make(plan, &mut next);
    let mut rack = Store::over(&mut places, &mut slots);
    Ok(pairs(&mut rack, count))
}

// What came of the pairs, and the time that they took.
fn timed<F: FnOnce(u32) -> Result<u64, RackFault>>(
    rt: &HostRuntime,
    pairs: F,
) -> io::Result<(Result<u64, RackFault>, Duration)>
    requires { F.IsAlwaysCallable pairs }
{
    let start = Instant::now(rt)?;
    let came = pairs(PAIRS);
    Ok((came, start.elapsed(rt)?))
}

fn main(rt: HostRuntime) -> io::Result<()> {
    let with_times = env::args(&rt)?.count() > 1;
    let (in_rows, rows_took) = timed(&rt, rows)?;
    let (in_cells, cells_took) = timed(&rt, cells)?;
    // What is taken sums to more than 0, which tells of a refusal.
    let (in_rows, in_cells) = (in_rows.unwrap_or(0), in_cells.unwrap_or(0));
    println!(rt; "rows took {in_rows}, cells {in_cells}")?;
    if with_times {
        println!(rt; "{} {}", rows_took.as_nanos(), cells_took.as_nanos())?;
    }
    Ok(())
}
