use super::ports::{booking, setup};
use book::faults::BookFault;
use book::rows::Row;
use book::setup::Class;
use line::banks::Bank;
use line::faults::LineFault::*;
use line::faults::{LegFault, LineFault};
use line::legs::{Leg, Request};
use line::paths::book_path;
use loads::marks::Mark;
use placers::by_count::ByCount;
use placers::by_time::ByTime;
use placers::placer::Placer;
use port::plan;
use port::ports::Port;
use racks::cells::CellSlots;
use racks::plan::{Numbers, check_cells, check_rows};
use racks::rack::Rack;
use racks::rows::RowSlots;
use racks::store::Store;
use schedule::faults::PortFault;
use std::process::Abort;
use std::test::Fail;

// What a path for frames of 100 octets answers.
fn try_path<B: Bank>(bank: &mut B, stream: u8, quota: u32, legs: &[Leg]) -> Result<(), LineFault> {
    let request = Request {
        stream,
        longest: 100,
        quota,
    };
    book_path(bank, request, legs)
}

fn refused_at(place: usize, fault: BookFault) -> Result<(), LineFault> {
    Err(AtLeg(LegFault { place, fault }))
}

// A port with one class of 4,000 ticks and two bins, or the refusal of its set.
fn port_of<R: Rack + Drop, P: Placer + Drop>(
    number: u64,
    rack: R,
    placer: P,
) -> Result<Port<R, P>, PortFault> {
    let classes = [Class {
        cycle: 4_000,
        bins: 2,
    }];
    let plan = plan::check(&setup(number, &classes), &rack, &placer)?;
    Ok(Port::make(plan, rack, placer))
}

fn leg(number: u8) -> Leg {
    Leg {
        number,
        input: 0,
        class: 0,
    }
}

// Goes through paths: three legs, the quota, and the answer where module 1 has 458 octets left, and of the others each has 2,458.
// After a refused one the stream's rows are free in all modules, after a booked one live.
fn goes<R: Rack + Drop, P: Placer + Drop, S: Rack + Drop, Q: Placer + Drop>(
    rt: &impl Abort,
    first: Port<R, P>,
    second: Port<S, Q>,
    third: Port<R, P>,
) -> Result<(), Fail> {
    let mut bank = (first, (second, (third, ())));
    assert_eq!(rt; try_path(&mut bank, 9, 2_000, &[leg(1)]), Ok(()));
    let over = BookFault::Over { class: 0, ticks: 1 };
    let paths = [
        ([1, 0, 2], 459, refused_at(0, over)),
        ([0, 1, 2], 459, refused_at(1, over)),
        ([2, 0, 1], 459, refused_at(2, over)),
        ([0, 1, 0], 120, Err(NoPath)),
        ([0, 1, 3], 120, Err(NoPath)),
        ([2, 1, 0], 119, refused_at(0, BookFault::BadLengths)),
        ([2, 1, 0], 458, Ok(())),
    ];
    for (numbers, quota, answer) in paths {
        let legs = numbers.map(leg);
        assert_eq!(rt; try_path(&mut bank, 5, quota, &legs), answer);
        let row = match answer {
            Ok(()) => Row::Live(booking(0, quota)),
            Err(_) => Row::Free,
        };
        assert_eq!(rt; (bank.0.row(5), bank.1.0.row(5), bank.1.1.0.row(5)),
            (Ok(row), Ok(row), Ok(row)));
    }
    // No leg, seventeen, a class that is not there, and a number that no module has.
    let absent = Leg { class: 1, ..leg(0) };
    assert_eq!(rt;
        (
            try_path(&mut bank, 6, 120, &[]),
            try_path(&mut bank, 6, 120, &[leg(0); 17]),
            try_path(&mut bank, 6, 120, &[leg(2), absent]),
            bank.has(3),
        ),
        (
            Err(NoPath),
            Err(NoPath),
            refused_at(1, BookFault::NotThere),
            false
        )
    );
    Ok(())
}

#[test]
fn refusals_have_their_numbers(rt: HostRuntime) {
    let over = BookFault::Over { class: 0, ticks: 1 };
    for (fault, number) in [
        (NoPath, 18),
        (
            AtLeg(LegFault {
                place: 1,
                fault: BookFault::NotThere,
            }),
            5,
        ),
        (
            AtLeg(LegFault {
                place: 0,
                fault: BookFault::BadLengths,
            }),
            6,
        ),
        (
            AtLeg(LegFault {
                place: 2,
                fault: over,
            }),
            8,
        ),
    ] {
        assert_eq!(rt; fault.number(), number);
    }
}

// Three ports over these racks, of two kinds and with two placers, in one line.
fn put_together<R: Rack + Drop, S: Rack + Drop>(
    rt: &impl Abort,
    first: R,
    second: S,
    third: R,
) -> Result<(), Fail> {
    let first = port_of(0, first, ByTime::new())?;
    let second = port_of(1, second, ByCount::new())?;
    let third = port_of(2, third, ByTime::new())?;
    goes(rt, first, second, third)
}

#[test]
fn paths_over_mixed_modules(rt: HostRuntime) -> Result<(), Fail> {
    let numbers = Numbers {
        bins: 2,
        depth: 47,
        total: 94,
    };
    let mut places = [Mark::new(0, 64, 0); 94];
    let mut rows = RowSlots::make(check_rows(numbers, &places)?);
    let mut next = [0; 94];
    let mut cell_places = [Mark::new(0, 64, 0); 94];
    let plan = check_cells(numbers, &cell_places, &next)?;
    let mut cells = CellSlots::make(plan, &mut next);
    let mut more_places = [Mark::new(0, 64, 0); 94];
    let mut more_rows = RowSlots::make(check_rows(numbers, &more_places)?);
    put_together(
        &rt,
        Store::over(&mut places, &mut rows),
        Store::over(&mut cell_places, &mut cells),
        Store::over(&mut more_places, &mut more_rows),
    )
}
