// One run of 84 million ticks, over an empty rack and over one whose last load waits for a far cycle.
use crate::ports;
use book::rows::Booking;
use book::setup::Class;
use loads::marks::Mark;
use placers::by_count::ByCount;
use port::ports::Port;
use racks::cells::CellSlots;
use racks::plan::{Numbers, check_cells};
use racks::rack::Rack;
use racks::store::Store;
use schedule::departures::Departure;
use schedule::faults::PortFault;
use std::alloc::AllocError;
use std::io;
use std::time::Instant;

const CLASSES: [Class; 3] = [
    Class {
        cycle: 2_000,
        bins: 3,
    },
    Class {
        cycle: 64_000,
        bins: 3,
    },
    Class {
        cycle: 1_024_000,
        bins: 8,
    },
];

const NUMBERS: Numbers = Numbers {
    bins: 14,
    depth: 12_190,
    total: 99_872,
};

const UNTIL: u64 = 84_000_000;
// The most departures of that run.
const PLACES: usize = 1_000_001;
// A stream of the slowest class, one frame of which fills a cycle.
const STREAM: u8 = 96;

const BOOKING: Booking = Booking {
    input: 0,
    class: 2,
    longest: 100,
    quota: 120,
};

// A port in which so many loads wait, each in a cycle of its own.
fn waiting<R: Rack<Item = Mark> + Drop>(
    rack: R,
    loads: u32,
) -> Result<Port<R, ByCount>, PortFault> {
    let mut port = ports::make(rack, &CLASSES)?;
    ports::admit(&mut port, STREAM, BOOKING)?;
    for number in 0..loads {
        port.frame(0, 0, Mark::new(STREAM, 100, number))?;
    }
    Ok(port)
}

fn run<R: Rack<Item = Mark> + Drop>(
    rt: &HostRuntime,
    rack: R,
    loads: u32,
    list: &mut [Departure<Mark>],
) -> io::Result<()> {
    let mut port = match waiting(rack, loads) {
        Ok(port) => port,
        Err(fault) => return println!(rt; "idle: refused, {}", fault.number()),
    };
    let start = Instant::now(rt)?;
    let came = port.run(UNTIL, list);
    let took = start.elapsed(rt)?;
    match came {
        Ok(count) => println!(rt; "idle: {count} departures in {} ns", took.as_nanos()),
        Err(fault) => println!(rt; "idle: refused, {}", fault.number()),
    }
}

fn run_over_cells(
    rt: &HostRuntime,
    loads: u32,
    places: &mut [Mark],
    next: &mut [u32],
    list: &mut [Departure<Mark>],
) -> io::Result<()> {
    match check_cells(NUMBERS, places, next) {
        Ok(plan) => {
            let mut slots = CellSlots::make(plan, next);
            run(rt, Store::over(places, &mut slots), loads, list)
        }
        Err(fault) => println!(rt; "idle: refused, {}", fault.number()),
    }
}

// The lists that are lent.
#[derive(Drop)]
struct Lists {
    places: Vec<Mark>,
    next: Vec<u32>,
    departures: Vec<Departure<Mark>>,
}

fn make_lists(rt: &HostRuntime) -> Result<Lists, AllocError> {
    Ok(Lists {
        places: vec![in rt.alloc(); Mark::new(0, 64, 0); NUMBERS.total as usize]?,
        next: vec![in rt.alloc(); 0; NUMBERS.total as usize]?,
        departures: vec![in rt.alloc(); ports::none(); PLACES]?,
    })
}

pub(crate) fn time(rt: &HostRuntime) -> io::Result<()> {
    let Ok(mut lists) = make_lists(rt) else {
        return println!(rt; "idle: no memory");
    };
    for loads in [0, 7] {
        run_over_cells(
            rt,
            loads,
            &mut lists.places,
            &mut lists.next,
            &mut lists.departures,
        )?;
    }
    Ok(())
}
