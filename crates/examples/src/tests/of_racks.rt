use loads::Load;
use loads::lifts::{Hook, LiftRow};
use loads::marks::Mark;
use racks::calls::{RackCall, drive};
use racks::cells::CellSlots;
use racks::faults::RackFault;
use racks::faults::RackFault::*;
use racks::plan::{Numbers, Plan, check_cells, check_rows};
use racks::rack::Rack;
use racks::rows::RowSlots;
use racks::store::Store;
use std::process::Abort;
use std::test::Fail;

// A call on a rack; what is put is the load of the step's stream.
#[derive(Clone, Copy)]
enum Call {
    Put(u32),
    Take(u32),
    Count(u32),
}

// What a call that is accepted answers: what is taken is told by its stream.
#[derive(Clone, Copy, PartialEq, Eq, Debug)]
enum Answer {
    Done,
    Took(Option<u8>),
    Holds(u32),
}

fn perform<R: Rack>(rack: &mut R, call: Call, load: R::Item) -> Result<Answer, RackFault> {
    match call {
        Call::Put(bin) => {
            rack.put(bin, load)?;
            Ok(Answer::Done)
        }
        Call::Take(bin) => Ok(Answer::Took(rack.take(bin)?.map(|load| load.stream()))),
        Call::Count(bin) => Ok(Answer::Holds(rack.count(bin)?)),
    }
}

// Call, stream, answer, on two bins of depth three with a total of four.
const STEPS: [(Call, usize, Result<Answer, RackFault>); 32] = [
    (Call::Take(0), 0, Ok(Answer::Took(None))),
    (Call::Put(0), 1, Ok(Answer::Done)),
    (Call::Put(0), 2, Ok(Answer::Done)),
    (Call::Put(0), 3, Ok(Answer::Done)),
    // A full bin, while all bins have room.
    (Call::Put(0), 4, Err(Full)),
    (Call::Count(0), 0, Ok(Answer::Holds(3))),
    (Call::Put(1), 4, Ok(Answer::Done)),
    // All bins are full, while the bin has room.
    (Call::Put(1), 5, Err(Full)),
    (Call::Count(1), 0, Ok(Answer::Holds(1))),
    (Call::Take(0), 0, Ok(Answer::Took(Some(1)))),
    // The ring wraps around, and the cell is used again.
    (Call::Put(0), 6, Ok(Answer::Done)),
    (Call::Put(0), 7, Err(Full)),
    (Call::Take(0), 0, Ok(Answer::Took(Some(2)))),
    (Call::Take(0), 0, Ok(Answer::Took(Some(3)))),
    // Cells of one bin serve the other.
    (Call::Put(1), 8, Ok(Answer::Done)),
    (Call::Put(1), 9, Ok(Answer::Done)),
    (Call::Put(1), 10, Err(Full)),
    (Call::Take(0), 0, Ok(Answer::Took(Some(6)))),
    (Call::Take(0), 0, Ok(Answer::Took(None))),
    // All bins have room, and the bin is full.
    (Call::Put(1), 10, Err(Full)),
    (Call::Count(0), 0, Ok(Answer::Holds(0))),
    (Call::Count(1), 0, Ok(Answer::Holds(3))),
    // The last bin is 1.
    (Call::Put(2), 1, Err(NotThere)),
    (Call::Take(2), 0, Err(NotThere)),
    (Call::Count(2), 0, Err(NotThere)),
    (Call::Put(4_294_967_295), 1, Err(NotThere)),
    (Call::Take(1), 0, Ok(Answer::Took(Some(4)))),
    (Call::Take(1), 0, Ok(Answer::Took(Some(8)))),
    (Call::Take(1), 0, Ok(Answer::Took(Some(9)))),
    (Call::Take(1), 0, Ok(Answer::Took(None))),
    (Call::Put(1), 11, Ok(Answer::Done)),
    (Call::Take(1), 0, Ok(Answer::Took(Some(11)))),
];

// Goes through the steps on a new rack, and then through calls that leave it empty; the loads are numbered by their streams.
fn walk<R: Rack>(
    rt: &impl Abort,
    rack: &mut R,
    loads: &[R::Item],
    calls: &[RackCall<R::Item>],
) -> Result<(), Fail> {
    assert_eq!(rt; (rack.bin_count(), rack.depth(), rack.total()), (2, 3, 4));
    for (call, stream, answer) in STEPS {
        let load = loads.get(stream).ok_or("no such load")?;
        assert_eq!(rt; perform(rack, call, *load), answer);
    }
    drive(rack, calls);
    assert!(rt; rack.is_empty());
    Ok(())
}

// A load goes in, is counted and comes out.
fn in_and_out<L>(load: L) -> [RackCall<L>; 3] {
    [
        RackCall::Put(1, load),
        RackCall::Count(1),
        RackCall::Take(1),
    ]
}

const NUMBERS: Numbers = Numbers {
    bins: 2,
    depth: 3,
    total: 4,
};

// A rows rack and a cells rack over the same loads, on the same steps.
fn side_by_side<L: Load>(
    rt: &impl Abort,
    loads: [L; 12],
    calls: [RackCall<L>; 3],
) -> Result<(), Fail> {
    let mut row_places = [loads[0]; 6];
    let mut row_slots = RowSlots::make(check_rows(NUMBERS, &row_places)?);
    let mut rows = Store::over(&mut row_places, &mut row_slots);
    walk(rt, &mut rows, &loads, &calls)?;
    let mut cell_places = [loads[0]; 4];
    let mut next = [0; 4];
    let mut cell_slots = CellSlots::make(check_cells(NUMBERS, &cell_places, &next)?, &mut next);
    let mut cells = Store::over(&mut cell_places, &mut cell_slots);
    walk(rt, &mut cells, &loads, &calls)
}

const STREAMS: [u8; 12] = [0, 1, 2, 3, 4, 5, 6, 7, 8, 9, 10, 11];

#[test]
fn both_racks_of_marks(rt: HostRuntime) -> Result<(), Fail> {
    let loads = STREAMS.map(|stream| Mark::new(stream, 64, 7));
    side_by_side(&rt, loads, in_and_out(loads[3]))
}

#[test]
fn both_racks_of_lift_rows(rt: HostRuntime) -> Result<(), Fail> {
    let loads = STREAMS.map(|stream| LiftRow::new(stream, 7, [Hook::Down; 64]));
    side_by_side(&rt, loads, in_and_out(loads[3]))
}

fn passes(checked: Result<Plan, RackFault>) -> Result<(), RackFault> {
    checked?;
    Ok(())
}

// Bins, depth, total, and what the checks of a rows rack and of a cells rack answer over 32 places.
#[test]
fn every_limit_at_both_sides(rt: HostRuntime) {
    let places = [Mark::new(0, 64, 7); 32];
    let cases = [
        (1, 1, 1, Ok(()), Ok(())),
        (0, 1, 1, Err(OutOfLimits), Err(OutOfLimits)),
        (32, 1, 32, Ok(()), Ok(())),
        (33, 1, 1, Err(OutOfLimits), Err(OutOfLimits)),
        (1, 0, 1, Err(OutOfLimits), Err(OutOfLimits)),
        (1, 1_048_576, 1, Err(TooFewPlaces), Ok(())),
        (1, 1_048_577, 1, Err(OutOfLimits), Err(OutOfLimits)),
        (1, 1, 0, Err(OutOfLimits), Err(OutOfLimits)),
        (1, 1, 1_048_576, Ok(()), Err(TooFewPlaces)),
        (1, 1, 1_048_577, Err(OutOfLimits), Err(OutOfLimits)),
        // As many places as are needed, and one fewer.
        (1, 32, 1, Ok(()), Ok(())),
        (1, 33, 1, Err(TooFewPlaces), Ok(())),
        (1, 1, 32, Ok(()), Ok(())),
        (1, 1, 33, Ok(()), Err(TooFewPlaces)),
        (16, 2, 32, Ok(()), Ok(())),
        (11, 3, 33, Err(TooFewPlaces), Err(TooFewPlaces)),
        // Two rules broken: the first is named.
        (
            4_294_967_295,
            4_294_967_295,
            4_294_967_295,
            Err(OutOfLimits),
            Err(OutOfLimits),
        ),
    ];
    for (bins, depth, total, rows, cells) in cases {
        let numbers = Numbers { bins, depth, total };
        assert_eq!(rt;
            (
                passes(check_rows(numbers, &places)),
                passes(check_cells(numbers, &places, &[0; 32])),
            ),
            (rows, cells)
        );
    }
    // Fewer numbers of next places than places.
    let numbers = Numbers {
        bins: 1,
        depth: 1,
        total: 32,
    };
    assert_eq!(rt;
        passes(check_cells(numbers, &places, &[0; 31])),
        Err(TooFewPlaces)
    );
}

#[test]
fn refusals_have_their_numbers(rt: HostRuntime) {
    for (fault, number) in [
        (OutOfLimits, 2),
        (TooFewPlaces, 4),
        (NotThere, 5),
        (Full, 19),
    ] {
        assert_eq!(rt; fault.number(), number);
    }
}

// A list that is shorter than the one checked: the rack holds nothing, and says so.
#[test]
fn a_shorter_list_than_checked(rt: HostRuntime) -> Result<(), Fail> {
    let load = Mark::new(1, 64, 7);
    let plan = check_rows(NUMBERS, &[load; 6])?;
    let mut slots = RowSlots::make(plan);
    let mut places = [load; 5];
    let mut rack = Store::over(&mut places, &mut slots);
    let cases = [
        (Call::Put(1), Err(Full)),
        (Call::Put(2), Err(NotThere)),
        (Call::Take(1), Ok(Answer::Took(None))),
        (Call::Count(1), Ok(Answer::Holds(0))),
    ];
    for (call, answer) in cases {
        assert_eq!(rt; perform(&mut rack, call, load), answer);
    }
    assert_eq!(rt; (rack.bin_count(), rack.depth(), rack.total()), (2, 3, 0));
    Ok(())
}

// The calls of a sequence leave what was put and not taken.
#[test]
fn a_sequence_of_calls(rt: HostRuntime) -> Result<(), Fail> {
    let first = Mark::new(1, 64, 7);
    let second = Mark::new(2, 64, 8);
    let numbers = Numbers {
        bins: 1,
        depth: 2,
        total: 2,
    };
    let mut slots = RowSlots::make(check_rows(numbers, &[first; 2])?);
    let mut places = [first; 2];
    let mut rack = Store::over(&mut places, &mut slots);
    let calls = [
        RackCall::Put(0, first),
        RackCall::Put(0, second),
        RackCall::Take(0),
        RackCall::Put(1, first),
        RackCall::Count(0),
    ];
    drive(&mut rack, &calls);
    assert_eq!(rt;
        (
            perform(&mut rack, Call::Count(0), first),
            perform(&mut rack, Call::Take(0), first),
        ),
        (Ok(Answer::Holds(1)), Ok(Answer::Took(Some(2))))
    );
    Ok(())
}

// What a load is made of, and hooks by number.
#[test]
fn what_loads_say(rt: HostRuntime) {
    let mark = Mark::new(255, 1_522, 4_294_967_295);
    assert_eq!(rt;
        (mark.stream(), mark.length(), mark.buffer()),
        (255, 1_522, 4_294_967_295)
    );
    let mut hooks = [Hook::Down; 64];
    hooks[63] = Hook::Up;
    let row = LiftRow::new(3, 9, hooks);
    assert_eq!(rt; (row.stream(), row.length(), row.pick()), (3, 64, 9));
    assert_eq!(rt;
        (row.hook(0), row.hook(63), row.hook(64), row.hook(255)),
        (Some(Hook::Down), Some(Hook::Up), None, None)
    );
}
