// The traffic: sixteen live streams, four in each class, whose frames are handed over before each run.
use crate::ports;
use crate::ports::Tally;
use book::frames;
use book::rows::Booking;
use book::setup::Class;
use loads::marks::Mark;
use placers::by_count::ByCount;
use port::ports::Port;
use racks::rack::Rack;
use schedule::departures::Departure;
use schedule::faults::PortFault;
use std::ops::Range;

const CLASSES: [Class; 4] = [
    Class {
        cycle: 2_000,
        bins: 3,
    },
    Class {
        cycle: 4_000,
        bins: 3,
    },
    Class {
        cycle: 8_000,
        bins: 3,
    },
    Class {
        cycle: 16_000,
        bins: 3,
    },
];

// What the streams of a class do: before one run in 1, 2 or 4 each hands over so many frames, of 64 octets and some more.
#[derive(Clone, Copy)]
struct Habit {
    class: u8,
    first_stream: u8,
    // The runs before which nothing is handed over have one of these bits.
    rest: u32,
    frames: u32,
    more: u16,
    longest: u16,
    quota: u32,
}

// The fastest class hands over for two cycles at once, the others for one.
const HABITS: [Habit; 4] = [
    Habit {
        class: 0,
        first_stream: 0,
        rest: 0,
        frames: 2,
        more: 15,
        longest: 79,
        quota: 99,
    },
    Habit {
        class: 1,
        first_stream: 32,
        rest: 0,
        frames: 2,
        more: 63,
        longest: 127,
        quota: 294,
    },
    Habit {
        class: 2,
        first_stream: 64,
        rest: 1,
        frames: 3,
        more: 63,
        longest: 127,
        quota: 441,
    },
    Habit {
        class: 3,
        first_stream: 96,
        rest: 3,
        frames: 3,
        more: 127,
        longest: 191,
        quota: 633,
    },
];

// Streams of each class.
const STREAMS: u8 = 4;
// A run is two cycles of the fastest class.
const RUN: u64 = 4_000;
// Four runs have a hundred frames, so that these have a million.
const RUNS: u32 = 40_000;
// After these runs nothing waits any more.
const LAST_RUNS: u32 = 12;
// The most departures of a run.
const PLACES: usize = 48;

impl Habit {
    fn streams(&self) -> Range<u8> {
        self.first_stream..self.first_stream.saturating_add(STREAMS)
    }

    // Lengths vary with the number of the frame.
    fn length(&self, number: u32) -> u16 {
        let mixed = number.wrapping_mul(2_654_435_761) >> 16;
        frames::SHORTEST.wrapping_add(mixed as u16 & self.more)
    }
}

// The loads are numbered as they are made.
#[derive(Drop)]
struct Numbers {
    next: u32,
}

impl Numbers {
    fn load(&mut self, habit: Habit, stream: u8) -> Mark {
        let number = self.next;
        self.next = number.wrapping_add(1);
        Mark::new(stream, habit.length(number), number)
    }
}

fn book_all<R: Rack>(port: &mut Port<R, ByCount>) -> Result<(), PortFault> {
    for habit in HABITS {
        for stream in habit.streams() {
            let booking = Booking {
                input: stream & 1,
                class: habit.class,
                longest: habit.longest,
                quota: habit.quota,
            };
            ports::admit(port, stream, booking)?;
        }
    }
    Ok(())
}

// Hands over the frames of a class, each with a stamp of a few ticks ago.
fn hand_over<R: Rack<Item = Mark>>(
    port: &mut Port<R, ByCount>,
    habit: Habit,
    numbers: &mut Numbers,
) -> Result<(), PortFault> {
    let clock = port.clock();
    for ago in (1..=habit.frames).rev() {
        let stamp = clock.saturating_sub(u64::from(ago));
        for stream in habit.streams() {
            let load = numbers.load(habit, stream);
            port.frame(stream & 1, stamp, load)?;
        }
    }
    Ok(())
}

// Hands over before a run what is due then.
fn hand_all<R: Rack<Item = Mark>>(
    port: &mut Port<R, ByCount>,
    run: u32,
    numbers: &mut Numbers,
) -> Result<(), PortFault> {
    for habit in HABITS {
        if run & habit.rest == 0 {
            hand_over(port, habit, numbers)?;
        }
    }
    Ok(())
}

fn send<R: Rack<Item = Mark>>(
    port: &mut Port<R, ByCount>,
    list: &mut [Departure<Mark>],
    before: Tally,
) -> Result<Tally, PortFault> {
    let until = port.clock().saturating_add(RUN);
    let count = port.run(until, list)?;
    Ok(
        list.iter()
            .take(count)
            .fold(before, |tally, departure| tally.after(departure)),
    )
}

// All runs, with a list that has room for one.
fn run_all<R: Rack<Item = Mark>>(
    port: &mut Port<R, ByCount>,
    list: &mut [Departure<Mark>],
) -> Result<Tally, PortFault> {
    let mut tally = Tally::default();
    let mut numbers = Numbers { next: 0 };
    for run in 0..RUNS {
        hand_all(port, run, &mut numbers)?;
        tally = send(port, list, tally)?;
    }
    for _ in 0..LAST_RUNS {
        tally = send(port, list, tally)?;
    }
    Ok(tally)
}

// All the traffic through a port over a rack.
pub(crate) fn passes<R: Rack<Item = Mark> + Drop>(rack: R) -> Result<Tally, PortFault> {
    let mut port = ports::make(rack, &CLASSES)?;
    book_all(&mut port)?;
    let mut list = [ports::none(); PLACES];
    run_all(&mut port, &mut list)
}
