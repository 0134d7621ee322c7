use book::faults::BookFault;
use book::rows::Booking;
use book::setup::{Class, Setup};
use loads::marks::Mark;
use placers::by_count::ByCount;
use placers::by_time::ByTime;
use placers::faults::PlacerFault;
use placers::placer::Placer;
use port::plan;
use port::ports::Port;
use racks::cells::CellSlots;
use racks::faults::RackFault;
use racks::plan::{Numbers, check_cells, check_rows};
use racks::rack::Rack;
use racks::rows::RowSlots;
use racks::store::Store;
use schedule::departures::Departure;
use schedule::faults::PortFault;
use schedule::faults::PortFault::*;
use std::process::Abort;
use std::test::Fail;

// A call on a port.
#[derive(Clone, Copy)]
enum Call {
    // Books a stream in a class, for frames of 100 octets.
    Book(u8, u8),
    // A frame of a stream with a stamp and a length, at input 0.
    Frame(u8, u64, u16),
    Filler(u16),
    // A run to a tick with so many places.
    Run(u64, usize),
}

// What a call that is accepted came to: done, a cycle, or departures with the start of the last.
#[derive(Clone, Copy, PartialEq, Eq, Debug)]
enum Came {
    Done,
    Cycle(u64),
    Left(usize, Option<u64>),
}

// A refusal of a port or of its book by its number, since they are faults of two types.
#[derive(Clone, Copy, PartialEq, Eq, Debug)]
struct Refused(u8);

impl From<BookFault> for Refused {
    fn from(fault: BookFault) -> Refused {
        Refused(fault.number())
    }
}

impl From<PortFault> for Refused {
    fn from(fault: PortFault) -> Refused {
        Refused(fault.number())
    }
}

const PLACES: usize = 256;

// One input with a phase of 0, no delay and no dead time.
pub(super) fn setup(number: u64, classes: &[Class]) -> Setup<'_> {
    Setup {
        number,
        delay: 0,
        dead_time: 0,
        classes,
        phases: &[0],
    }
}

// A booking of frames of 100 octets at input 0.
pub(super) fn booking(class: u8, quota: u32) -> Booking {
    Booking {
        input: 0,
        class,
        longest: 100,
        quota,
    }
}

// A hold that is confirmed. Each crate of tests has its own: a public function for it would be for tests alone.
fn admit<R: Rack, P: Placer>(
    port: &mut Port<R, P>,
    stream: u8,
    booking: Booking,
) -> Result<(), BookFault> {
    let note = port.hold(stream, booking)?;
    match port.confirm(note) {
        Ok(()) => Ok(()),
        Err((_, _)) => unreachable(),
    }
}

fn perform<R: Rack<Item = Mark>, P: Placer>(
    port: &mut Port<R, P>,
    call: Call,
) -> Result<Came, Refused> {
    match call {
        Call::Book(stream, class) => {
            admit(port, stream, booking(class, 120))?;
            Ok(Came::Done)
        }
        Call::Frame(stream, stamp, length) => {
            let cycle = port.frame(0, stamp, Mark::new(stream, length, 7))?;
            Ok(Came::Cycle(cycle))
        }
        Call::Filler(length) => {
            port.filler(length)?;
            Ok(Came::Done)
        }
        Call::Run(until, places) => Ok(run(port, until, places)?),
    }
}

fn run<R: Rack<Item = Mark>, P: Placer>(
    port: &mut Port<R, P>,
    until: u64,
    places: usize,
) -> Result<Came, PortFault> {
    let none = Departure {
        stream: 0,
        class: 0,
        cycle: 0,
        start: 0,
        load: Mark::new(0, 64, 0),
    };
    let mut list = [none; PLACES];
    let most = places.min(PLACES);
    let count = port.run(until, &mut list[..most])?;
    let last = list.iter().take(count).last();
    Ok(Came::Left(count, last.map(|departure| departure.start)))
}

// One class of 4,000 ticks beside one of 8,000, a phase of 0, no delay, no dead time. What comes is the same by time and by count.
const STEPS: [(Call, Result<Came, Refused>); 30] = [
    (Call::Book(1, 0), Ok(Came::Done)),
    (Call::Book(2, 1), Ok(Came::Done)),
    (Call::Book(2, 1), Err(Refused(7))),
    (Call::Book(3, 2), Err(Refused(5))),
    (Call::Frame(128, 0, 100), Err(Refused(5))),
    (Call::Frame(3, 0, 100), Err(Refused(7))),
    (Call::Frame(1, 0, 63), Err(Refused(10))),
    (Call::Frame(1, 0, 101), Err(Refused(10))),
    (Call::Frame(1, 1, 100), Err(Refused(11))),
    // The cycle's first tick; the quota is full then.
    (Call::Frame(1, 0, 100), Ok(Came::Cycle(1))),
    (Call::Filler(63), Err(Refused(10))),
    (Call::Filler(1_523), Err(Refused(10))),
    (Call::Run(84, 1), Err(Refused(17))),
    (Call::Run(84, 2), Ok(Came::Left(0, None))),
    (Call::Run(83, 9), Err(Refused(16))),
    // No delay: the clock may not be after the stamp.
    (Call::Frame(1, 83, 64), Err(Refused(11))),
    (Call::Run(3_999, 99), Ok(Came::Left(0, None))),
    // The longest filler one tick before the cycle, and one more while it is on the wire.
    (Call::Filler(1_522), Ok(Came::Done)),
    (Call::Filler(64), Err(Refused(15))),
    (Call::Run(8_000, 99), Ok(Came::Left(1, Some(5_541)))),
    // A load of each class at the start of a cycle of both: the faster goes first.
    (Call::Frame(2, 8_000, 100), Ok(Came::Cycle(2))),
    (Call::Frame(1, 8_000, 100), Ok(Came::Cycle(3))),
    (Call::Run(16_000, 99), Ok(Came::Left(1, Some(12_000)))),
    (Call::Filler(64), Err(Refused(15))),
    (Call::Frame(1, 16_000, 100), Ok(Came::Cycle(5))),
    (Call::Run(20_000, 99), Ok(Came::Left(1, Some(16_000)))),
    (Call::Run(24_000, 99), Ok(Came::Left(1, Some(20_000)))),
    (Call::Run(1_099_511_627_776, 99), Err(Refused(16))),
    (Call::Run(108_000, 255), Err(Refused(17))),
    (Call::Run(45_000, 255), Ok(Came::Left(0, None))),
];

// Sets a port over a rack with just the room that it needs, and goes through the steps.
fn goes<R: Rack<Item = Mark> + Drop, P: Placer + Drop>(
    rt: &impl Abort,
    rack: R,
    placer: P,
) -> Result<(), Fail> {
    let classes = [
        Class {
            cycle: 4_000,
            bins: 2,
        },
        Class {
            cycle: 8_000,
            bins: 2,
        },
    ];
    let plan = plan::check(&setup(0, &classes), &rack, &placer)?;
    let mut port = Port::make(plan, rack, placer);
    for (call, came) in STEPS {
        assert_eq!(rt; perform(&mut port, call), came);
    }
    assert_eq!(rt; (port.clock(), port.wire()), (45_000, 20_120));
    Ok(())
}

const NUMBERS: Numbers = Numbers {
    bins: 4,
    depth: 95,
    total: 284,
};

#[test]
fn a_port_over_rows_by_time(rt: HostRuntime) -> Result<(), Fail> {
    let mut places = [Mark::new(0, 64, 0); 380];
    let mut slots = RowSlots::make(check_rows(NUMBERS, &places)?);
    goes(&rt, Store::over(&mut places, &mut slots), ByTime::new())
}

#[test]
fn a_port_over_cells_by_count(rt: HostRuntime) -> Result<(), Fail> {
    let mut places = [Mark::new(0, 64, 0); 284];
    let mut next = [0; 284];
    let plan = check_cells(NUMBERS, &places, &next)?;
    let mut slots = CellSlots::make(plan, &mut next);
    goes(&rt, Store::over(&mut places, &mut slots), ByCount::new())
}

// What a set answers over a rack of that room, if there is such a rack.
fn set(bins: u32, depth: u32, total: u32, cycle: u32) -> Result<Result<(), PortFault>, RackFault> {
    let mut places = [Mark::new(0, 64, 0); 188];
    let numbers = Numbers { bins, depth, total };
    let mut slots = RowSlots::make(check_rows(numbers, &places)?);
    let rack = Store::over(&mut places, &mut slots);
    let classes = [Class { cycle, bins: 2 }];
    let checked = plan::check(&setup(0, &classes), &rack, &ByTime::new());
    Ok(checked.map(|_| ()))
}

// The rules of the settings, then the rack, of which every number is at its edge.
#[test]
fn what_set_refuses(rt: HostRuntime) -> Result<(), Fail> {
    let cases = [
        (2, 47, 94, 4_000, Ok(())),
        (4, 47, 188, 4_000, Ok(())),
        (1, 47, 94, 4_000, Err(BadRack)),
        (2, 46, 94, 4_000, Err(BadRack)),
        (2, 47, 93, 4_000, Err(BadRack)),
        // The rule before it is named first.
        (2, 46, 94, 1_999, Err(Settings(BookFault::OutOfLimits))),
    ];
    for (bins, depth, total, cycle, answer) in cases {
        assert_eq!(rt; set(bins, depth, total, cycle)?, answer);
    }
    Ok(())
}

#[test]
fn refusals_have_their_numbers(rt: HostRuntime) {
    for (fault, number) in [
        (Settings(BookFault::OutOfLimits), 2),
        (BadRack, 4),
        (NotThere, 5),
        (NotLive, 7),
        (WrongInput, 9),
        (BadLength, 10),
        (BadStamp, 11),
        (StampBack, 12),
        (Placing(PlacerFault::NotInside), 13),
        (Placing(PlacerFault::NoRoom), 14),
        (WireTaken, 15),
        (BadUntil, 16),
        (ShortList, 17),
    ] {
        assert_eq!(rt; fault.number(), number);
    }
}
