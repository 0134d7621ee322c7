// The port that is timed, and what is told of it.
use book::rows::Booking;
use book::setup::{Class, Setup};
use loads::marks::Mark;
use placers::by_count::ByCount;
use port::plan;
use port::ports::Port;
use racks::rack::Rack;
use schedule::departures::Departure;
use schedule::faults::PortFault;

// The longest hand-over delay.
const DELAY: u32 = 1_000;

const PHASES: [u32; 2] = [0, 500];

// How many loads left, and a sum over their streams, classes, cycles, starts and buffers.
#[derive(Clone, Copy, PartialEq, Eq, Debug, Default)]
pub(crate) struct Tally {
    pub(crate) count: u64,
    pub(crate) sum: u64,
}

impl Tally {
    // The order counts too.
    pub(crate) fn after(&self, departure: &Departure<Mark>) -> Tally {
        let numbers = u64::from(departure.stream) << 48
            | u64::from(departure.class) << 56
            | u64::from(departure.load.buffer());
        let ticks = departure.cycle << 40 ^ departure.start;
        Tally {
            count: self.count.wrapping_add(1),
            sum: self.sum.wrapping_mul(31).wrapping_add(numbers ^ ticks),
        }
    }
}

// What stands in a list before a departure is written there.
pub(crate) fn none() -> Departure<Mark> {
    Departure {
        stream: 0,
        class: 0,
        cycle: 0,
        start: 0,
        load: Mark::new(0, 64, 0),
    }
}

// A port with these classes over a rack.
pub(crate) fn make<R: Rack<Item = Mark> + Drop>(
    rack: R,
    classes: &[Class],
) -> Result<Port<R, ByCount>, PortFault> {
    let placer = ByCount::new();
    let setup = Setup {
        number: 0,
        delay: DELAY,
        dead_time: 0,
        classes,
        phases: &PHASES,
    };
    let plan = plan::check(&setup, &rack, &placer)?;
    Ok(Port::make(plan, rack, placer))
}

// Makes a stream live. The tests have the like of their own: a public function for it would be for these alone.
pub(crate) fn admit<R: Rack>(
    port: &mut Port<R, ByCount>,
    stream: u8,
    booking: Booking,
) -> Result<(), PortFault> {
    let note = port.hold(stream, booking)?;
    match port.confirm(note) {
        Ok(()) => Ok(()),
        Err((_, _)) => unreachable(),
    }
}
