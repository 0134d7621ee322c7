use book::faults::BookFault;
use book::faults::BookFault::*;
use book::setup::{Class, Settings, Setup};
use book::ticks::bins_needed;

// What a set answers.
fn set(delay: u32, dead_time: u32, classes: &[Class], phases: &[u32]) -> Result<(), BookFault> {
    Settings::check(&Setup {
        number: 0,
        delay,
        dead_time,
        classes,
        phases,
    })?;
    Ok(())
}

// Delay, cycle, phase, answer.
#[test]
fn bins_needed_at_its_limits(rt: HostRuntime) {
    let cases = [
        (0, 4_000, 0, Ok(2)),
        (65_535, 2_000, 1_999, Ok(36)),
        (65_536, 4_000, 0, Err(OutOfLimits)),
        (0, 1_999, 0, Err(OutOfLimits)),
        (0, 2_000, 0, Ok(2)),
        (0, 1_048_576, 0, Ok(2)),
        (0, 1_048_577, 0, Err(OutOfLimits)),
        (0, 4_000, 3_999, Ok(3)),
        (0, 4_000, 4_000, Err(OutOfLimits)),
        (
            4_294_967_295,
            4_294_967_295,
            4_294_967_295,
            Err(OutOfLimits),
        ),
    ];
    for (delay, cycle, phase, answer) in cases {
        assert_eq!(rt; bins_needed(delay, cycle, phase), answer);
    }
}

fn two_bins(cycle: u32) -> Class {
    Class { cycle, bins: 2 }
}

// Classes, inputs, answer.
#[test]
fn classes_and_inputs_in_number(rt: HostRuntime) {
    let classes = [
        two_bins(2_000),
        two_bins(4_000),
        two_bins(8_000),
        two_bins(16_000),
        two_bins(32_000),
    ];
    let phases = [0; 9];
    let cases = [
        (&classes[..0], &phases[..1], Err(NotInNumber)),
        (&classes[..1], &phases[..1], Ok(())),
        (&classes[..4], &phases[..8], Ok(())),
        (&classes[..5], &phases[..1], Err(NotInNumber)),
        (&classes[..1], &phases[..0], Err(NotInNumber)),
        (&classes[..1], &phases[..9], Err(NotInNumber)),
    ];
    for (classes, phases, answer) in cases {
        assert_eq!(rt; set(0, 0, classes, phases), answer);
    }
}

// Delay, dead time, cycle, bins, phase of the second input, answer.
#[test]
fn one_class_within_its_limits(rt: HostRuntime) {
    let cases = [
        (65_535, 0, 65_536, 3, 0, Ok(())),
        (65_536, 0, 65_536, 3, 0, Err(OutOfLimits)),
        (0, 0, 1_999, 2, 0, Err(OutOfLimits)),
        (0, 0, 2_000, 2, 0, Ok(())),
        (0, 0, 1_048_576, 2, 0, Ok(())),
        (0, 0, 1_048_577, 2, 0, Err(OutOfLimits)),
        (0, 2_374, 4_000, 2, 0, Ok(())),
        (0, 2_375, 4_000, 2, 0, Err(OutOfLimits)),
        (0, 4_294_967_295, 4_000, 2, 0, Err(OutOfLimits)),
        (0, 0, 4_000, 1, 0, Err(OutOfLimits)),
        (0, 0, 4_000, 8, 0, Ok(())),
        (0, 0, 4_000, 9, 0, Err(OutOfLimits)),
        (0, 0, 4_000, 3, 3_999, Ok(())),
        (0, 0, 4_000, 3, 4_000, Err(OutOfLimits)),
        // Bins for the delay, and for the phase of the second input.
        (4_000, 0, 4_000, 3, 0, Ok(())),
        (4_001, 0, 4_000, 3, 0, Err(TooFewBins)),
        (4_001, 0, 4_000, 4, 0, Ok(())),
        (0, 0, 4_000, 2, 1, Err(TooFewBins)),
        // Both a limit and the bins: the limit is named.
        (8_000, 2_375, 4_000, 2, 0, Err(OutOfLimits)),
    ];
    for (delay, dead_time, cycle, bins, phase, answer) in cases {
        assert_eq!(rt;
            set(delay, dead_time, &[Class { cycle, bins }], &[0, phase]),
            answer
        );
    }
}

// First cycle, second cycle, answer: also where the second class alone has too few bins for the phase.
#[test]
fn each_cycle_is_a_multiple_of_the_one_before(rt: HostRuntime) {
    let cases = [
        (2_000, 4_000, Ok(())),
        (2_000, 2_000, Err(OutOfLimits)),
        (2_000, 5_000, Err(OutOfLimits)),
        (4_000, 2_000, Err(OutOfLimits)),
        (2_000, 128_000, Ok(())),
        (2_000, 130_000, Err(OutOfLimits)),
        (2_000, 4_294_967_295, Err(OutOfLimits)),
    ];
    for (first, second, answer) in cases {
        assert_eq!(rt;
            set(0, 0, &[two_bins(first), two_bins(second)], &[0]),
            answer
        );
    }
    assert_eq!(rt;
        set(0, 0, &[two_bins(4_000), two_bins(16_000)], &[0, 4_000]),
        Err(TooFewBins)
    );
    assert_eq!(rt;
        set(65_536, 0, &[], &[0]),
        Err(NotInNumber),
        "the first rule broken is named"
    );
}

#[test]
fn refusals_have_their_numbers(rt: HostRuntime) {
    for (fault, number) in [
        (NotInNumber, 1),
        (OutOfLimits, 2),
        (TooFewBins, 3),
        (NotThere, 5),
        (BadLengths, 6),
        (WrongState, 7),
        (Over { class: 0, ticks: 1 }, 8),
        (BadUntil, 16),
    ] {
        assert_eq!(rt; fault.number(), number);
    }
}
