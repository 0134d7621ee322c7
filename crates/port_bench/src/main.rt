// What the benchmark times: one million frames in and out of a port in four classes, over each rack; see bench/.
// Alone it prints how many departures came and a sum over them, so that no call can be left out; with the word `time` the
// nanoseconds of each as well, and those of a long run in which nothing or little leaves.
#![tactic(auto)]

mod idle;
mod ports;
mod traffic;

use crate::ports::Tally;
use loads::marks::Mark;
use racks::cells::CellSlots;
use racks::plan::{Numbers, check_cells, check_rows};
use racks::rack::Rack;
use racks::rows::RowSlots;
use racks::store::Store;
use schedule::faults::PortFault;
use std::time::{Duration, Instant};
use std::{env, io};

const NUMBERS: Numbers = Numbers {
    bins: 12,
    depth: 190,
    total: 1_065,
};

// A function for each rack, since each makes lists of its own and lends them: one over both would take all that is in them.
fn rows() -> Result<Tally, PortFault> {
    let mut places = [Mark::new(0, 64, 0); 2_280];
    let plan = check_rows(NUMBERS, &places).map_err(|_| PortFault::BadRack)?;
    let mut slots = RowSlots::make(plan);
    traffic::passes(Store::over(&mut places, &mut slots))
}

fn cells() -> Result<Tally, PortFault> {
    let mut places = [Mark::new(0, 64, 0); 1_065];
    let mut next = [0; 1_065];
    let plan = check_cells(NUMBERS, &places, &next).map_err(|_| PortFault::BadRack)?;
    let mut slots = CellSlots::make(plan, &mut next);
    traffic::passes(Store::over(&mut places, &mut slots))
}

// What came of the traffic over a rack, and the time that it took.
fn timed<F: FnOnce() -> Result<Tally, PortFault>>(
    rt: &HostRuntime,
    traffic: F,
) -> io::Result<(Result<Tally, PortFault>, Duration)>
    requires { F.IsAlwaysCallable traffic }
{
    let start = Instant::now(rt)?;
    let came = traffic();
    Ok((came, start.elapsed(rt)?))
}

fn tell(rt: &HostRuntime, name: &str, came: Result<Tally, PortFault>) -> io::Result<()> {
    match came {
        Ok(tally) => println!(rt; "{name}: {} departures, sum {}", tally.count, tally.sum),
        Err(fault) => println!(rt; "{name}: refused, {}", fault.number()),
    }
}

fn main(rt: HostRuntime) -> io::Result<()> {
    let with_times = env::args(&rt)?.count() > 1;
    let (in_rows, rows_took) = timed(&rt, rows)?;
    let (in_cells, cells_took) = timed(&rt, cells)?;
    tell(&rt, "rows", in_rows)?;
    tell(&rt, "cells", in_cells)?;
    if with_times {
        println!(rt; "{} {}", rows_took.as_nanos(), cells_took.as_nanos())?;
        idle::time(&rt)?;
    }
    Ok(())
}
