use book::setup::{Class, Settings, Setup};
use book::ticks::LAST_TICK;
use placers::by_count::ByCount;
use placers::by_time::ByTime;
use placers::faults::PlacerFault;
use placers::faults::PlacerFault::*;
use placers::placer::{Placer, latest_after};
use placers::terms::{Ask, Terms};
use std::process::Abort;
use std::test::Fail;

pub(super) fn terms(cycle: u32, phase: u32, delay: u32, bins: u8) -> Terms {
    Terms {
        cycle,
        phase,
        delay,
        bins,
    }
}

// A frame of a stream whose quota is 1,000.
fn frame(tick: u64, octets: u32) -> Ask {
    Ask {
        clock: tick,
        stamp: tick,
        octets,
        quota: 1_000,
    }
}

// What a frame alone gets.
fn alone<P: Placer + Drop>(mut placer: P, terms: Terms, ask: Ask) -> Result<u64, PlacerFault> {
    placer.place(0, terms, ask)
}

// By time, whatever the clock.
fn alone_by_time(terms: Terms, stamp: u64, octets: u32, quota: u32) -> Result<u64, PlacerFault> {
    let ask = Ask {
        clock: 0,
        stamp,
        octets,
        quota,
    };
    alone(ByTime::new(), terms, ask)
}

// By count, whatever the stamp.
fn alone_by_count(terms: Terms, clock: u64, octets: u32, quota: u32) -> Result<u64, PlacerFault> {
    let ask = Ask {
        clock,
        stamp: 0,
        octets,
        quota,
    };
    alone(ByCount::new(), terms, ask)
}

// Stamp, octets, quota, answer: cycle 4,000 with no phase and no delay, so a shift of 1.
#[test]
fn by_time_at_the_edges_of_a_cycle(rt: HostRuntime) {
    let cases = [
        (0, 120, 120, Ok(1)),
        (0, 120, 119, Err(NoRoom)),
        (3_880, 120, 1_000, Ok(1)),
        (3_881, 120, 1_000, Err(NotInside)),
        // Both refusals are due, and the first is answered.
        (3_881, 120, 119, Err(NotInside)),
        (3_999, 1, 1_000, Ok(1)),
        (4_000, 120, 1_000, Ok(2)),
        (0, 4_000, 4_000, Ok(1)),
        (0, 4_001, 4_294_967_295, Err(NotInside)),
        (0, 4_294_967_295, 4_294_967_295, Err(NotInside)),
        (LAST_TICK, 225, 1_000, Ok(274_877_907)),
        (LAST_TICK, 226, 1_000, Err(NotInside)),
        (LAST_TICK + 1, 84, 1_000, Err(NotInside)),
        (18_446_744_073_709_551_615, 84, 1_000, Err(NotInside)),
    ];
    for (stamp, octets, quota, answer) in cases {
        assert_eq!(rt;
            alone_by_time(terms(4_000, 0, 0, 2), stamp, octets, quota),
            answer
        );
    }
}

// Cycle, phase, delay, stamp, answer for 120 octets: the phase beside the cycle's edge, shifts of 2 and 3, and odd terms.
#[test]
fn by_time_with_a_phase(rt: HostRuntime) {
    let cases = [
        (4_000, 3_999, 1, 3_998, Err(NotInside)),
        (4_000, 3_999, 1, 3_999, Ok(2)),
        (4_000, 3_999, 1, 7_879, Ok(2)),
        (4_000, 3_999, 1, 7_880, Err(NotInside)),
        (4_000, 3_999, 1, 7_999, Ok(3)),
        (4_000, 3_999, 2, 3_999, Ok(3)),
        (4_000, 1, 3_999, 0, Err(NotInside)),
        (4_000, 1, 3_999, 1, Ok(2)),
        (4_000, 0, 4_001, 0, Ok(3)),
        (0, 0, 0, 0, Err(NotInside)),
        (
            0,
            4_294_967_295,
            4_294_967_295,
            4_294_967_295,
            Err(NotInside),
        ),
        (1, 0, 0, LAST_TICK, Err(NotInside)),
        (
            4_294_967_295,
            4_294_967_295,
            4_294_967_295,
            4_294_967_295,
            Ok(3),
        ),
        (120, 0, 4_294_967_295, 0, Ok(35_791_396)),
    ];
    for (cycle, phase, delay, stamp, answer) in cases {
        assert_eq!(rt;
            alone_by_time(terms(cycle, phase, delay, 2), stamp, 120, 1_000),
            answer
        );
    }
}

// Clock, octets, quota, answer: cycle 4,000 with three bins.
#[test]
fn by_count_at_the_edges_of_a_cycle(rt: HostRuntime) {
    let cases = [
        (0, 120, 120, Ok(1)),
        (0, 120, 119, Err(NoRoom)),
        (3_999, 120, 1_000, Ok(1)),
        (4_000, 120, 1_000, Ok(2)),
        (0, 0, 0, Ok(1)),
        (0, 4_294_967_295, 4_294_967_295, Ok(1)),
        (LAST_TICK, 84, 1_000, Ok(274_877_907)),
        (LAST_TICK + 1, 84, 1_000, Err(NoRoom)),
        (18_446_744_073_709_551_615, 84, 1_000, Err(NoRoom)),
    ];
    for (clock, octets, quota, answer) in cases {
        assert_eq!(rt;
            alone_by_count(terms(4_000, 0, 0, 3), clock, octets, quota),
            answer
        );
    }
}

// Cycle, bins, clock, answer: terms that no settings give.
#[test]
fn by_count_with_odd_terms(rt: HostRuntime) {
    let cases = [
        (4_000, 0, 100, Err(NoRoom)),
        (4_000, 1, 100, Err(NoRoom)),
        (4_000, 2, 100, Ok(1)),
        (4_000, 255, 100, Ok(1)),
        (0, 2, LAST_TICK, Ok(1)),
        (1, 2, LAST_TICK, Ok(LAST_TICK + 1)),
        (4_294_967_295, 2, 100, Ok(1)),
    ];
    for (cycle, bins, clock, answer) in cases {
        assert_eq!(rt;
            alone_by_count(terms(cycle, 0, 0, bins), clock, 84, 1_000),
            answer
        );
    }
}

// Tick, octets, answer.
type Step = (u64, u32, Result<u64, PlacerFault>);

// One step after the other, and a last one with the stream made new.
fn frame_after_frame<P: Placer + Drop>(
    rt: &impl Abort,
    mut placer: P,
    terms: Terms,
    steps: &[Step],
    made_new: Step,
) {
    for (tick, octets, answer) in steps {
        assert_eq!(rt; placer.place(0, terms, frame(*tick, *octets)), *answer);
    }
    placer.renew(0, terms);
    let (tick, octets, answer) = made_new;
    assert_eq!(rt; placer.place(0, terms, frame(tick, octets)), answer);
}

// Cycle 4,000, the quota of 1,000 met and passed in an input cycle.
#[test]
fn by_time_frame_after_frame(rt: HostRuntime) {
    let steps = [
        (0, 600, Ok(1)),
        (700, 401, Err(NoRoom)),
        (700, 400, Ok(1)),
        (1_200, 1, Err(NoRoom)),
        (3_990, 84, Err(NotInside)),
        (4_000, 1_000, Ok(2)),
        (5_000, 84, Err(NoRoom)),
        (12_000, 84, Ok(4)),
    ];
    frame_after_frame(
        &rt,
        ByTime::new(),
        terms(4_000, 0, 0, 2),
        &steps,
        (12_000, 1_000, Ok(4)),
    );
}

// Cycle 4,000, the last of three bins reached and passed.
#[test]
fn by_count_frame_after_frame(rt: HostRuntime) {
    let steps = [
        (100, 600, Ok(1)),
        (100, 600, Ok(2)),
        (100, 600, Err(NoRoom)),
        (100, 400, Ok(2)),
        (3_999, 84, Err(NoRoom)),
        (4_000, 84, Ok(3)),
        (4_000, 917, Err(NoRoom)),
        (4_000, 916, Ok(3)),
        (12_000, 1_000, Ok(4)),
        (12_000, 1_001, Err(NoRoom)),
        (12_000, 1_000, Ok(5)),
        (12_000, 84, Err(NoRoom)),
    ];
    frame_after_frame(
        &rt,
        ByCount::new(),
        terms(4_000, 0, 0, 3),
        &steps,
        (12_000, 84, Ok(4)),
    );
}

// Stream, octets, answer, one after the other at tick 0, by either placer with two bins: the quota holds for each stream alone.
fn streams_apart<P: Placer>(rt: &impl Abort, placer: &mut P) {
    let cases = [
        (3, 1_000, Ok(1)),
        (3, 84, Err(NoRoom)),
        (0, 900, Ok(1)),
        (127, 1_000, Ok(1)),
        (128, 84, Err(NotThere)),
        (255, 84, Err(NotThere)),
        (0, 100, Ok(1)),
        (127, 84, Err(NoRoom)),
        (3, 84, Err(NoRoom)),
    ];
    for (stream, octets, answer) in cases {
        assert_eq!(rt;
            placer.place(stream, terms(4_000, 0, 0, 2), frame(0, octets)),
            answer
        );
    }
    // A stream made new has room again, the others have not.
    placer.renew(3, terms(4_000, 0, 0, 2));
    placer.renew(128, terms(4_000, 0, 0, 2));
    for (stream, answer) in [(127, Err(NoRoom)), (0, Err(NoRoom)), (3, Ok(1))] {
        assert_eq!(rt;
            placer.place(stream, terms(4_000, 0, 0, 2), frame(0, 84)),
            answer
        );
    }
    assert_eq!(rt; latest_after(placer, terms(4_000, 0, 4_001, 4)), 3);
}

#[test]
fn streams_apart_by_time(rt: HostRuntime) {
    streams_apart(&rt, &mut ByTime::new());
}

#[test]
fn streams_apart_by_count(rt: HostRuntime) {
    streams_apart(&rt, &mut ByCount::new());
}

#[test]
fn refusals_have_their_numbers(rt: HostRuntime) {
    for (fault, number) in [(NotThere, 5), (NotInside, 13), (NoRoom, 14)] {
        assert_eq!(rt; fault.number(), number);
    }
}

// Class, input, terms: the phase is taken in the cycle of the class.
#[test]
fn terms_of_a_class_and_an_input(rt: HostRuntime) -> Result<(), Fail> {
    let fast = Class {
        cycle: 4_000,
        bins: 3,
    };
    let slow = Class {
        cycle: 16_000,
        bins: 4,
    };
    let settings = Settings::check(&Setup {
        number: 0,
        delay: 1,
        dead_time: 100,
        classes: &[fast, slow],
        phases: &[0, 15_999],
    })?;
    let cases = [
        (0, 0, Some(terms(4_000, 0, 1, 3))),
        (0, 1, Some(terms(4_000, 3_999, 1, 3))),
        (1, 1, Some(terms(16_000, 15_999, 1, 4))),
        (2, 0, None),
        (0, 2, None),
        (255, 255, None),
    ];
    for (class, input, answer) in cases {
        assert_eq!(rt; Terms::of(&settings, class, input), answer);
    }
    Ok(())
}
