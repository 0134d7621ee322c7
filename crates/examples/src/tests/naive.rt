// Pseudo-random sequences of frames, answered by a placer and by a naive way that goes through all cycles one by one.
use super::of_placers::terms;
use placers::by_count::ByCount;
use placers::by_time::ByTime;
use placers::faults::PlacerFault;
use placers::faults::PlacerFault::*;
use placers::placer::Placer;
use placers::terms::{Ask, Terms};
use std::process::Abort;

// A number below a bound from the next state of a generator.
fn draw(state: &mut u32, bound: u32) -> u32 {
    *state = state.wrapping_mul(1_664_525).wrapping_add(1_013_904_223);
    (*state >> 8).checked_rem(bound).unwrap_or(0)
}

fn has_room(given: u32, octets: u32, quota: u32) -> bool {
    u64::from(given) + u64::from(octets) <= u64::from(quota)
}

// The octets of each input cycle, of 2,000 ticks from tick 500 on. The shift is 3.
fn naive_by_time(given: &mut [u32; 64], ask: Ask) -> Result<u64, PlacerFault> {
    for (i, given) in given.iter_mut().enumerate() {
        let start = 500 + i as u64 * 2_000;
        if start <= ask.stamp
            && ask.stamp <= 200_000
            && ask.stamp + u64::from(ask.octets) <= start + 2_000
        {
            if !has_room(*given, ask.octets, ask.quota) {
                return Err(NoRoom);
            }
            *given = given.saturating_add(ask.octets);
            return Ok(i as u64 + 3);
        }
    }
    Err(NotInside)
}

// The octets of each cycle of 2,000 ticks, with three bins. No cycle is before one that has octets.
fn naive_by_count(given: &mut [u32; 64], ask: Ask) -> Result<u64, PlacerFault> {
    let current = ask.clock / 2_000;
    let last = given.iter().rposition(|octets| *octets > 0).unwrap_or(0);
    for (q, given) in given.iter_mut().enumerate() {
        if q as u64 > current && q >= last && has_room(*given, ask.octets, ask.quota) {
            if q as u64 - current > 2 {
                return Err(NoRoom);
            }
            *given = given.saturating_add(ask.octets);
            return Ok(q as u64);
        }
    }
    Err(NoRoom)
}

// Frames of a stream one after the other, each handed over at its stamp.
fn side_by_side<P: Placer, F: FnMut(&mut [u32; 64], Ask) -> Result<u64, PlacerFault>>(
    rt: &impl Abort,
    placer: &mut P,
    terms: Terms,
    seed: u32,
    mut naive: F,
)
    requires { F.IsAlwaysCallable naive }
{
    let mut given = [0; 64];
    let mut state = seed;
    let mut tick: u64 = 0;
    for _ in 0..400 {
        tick = tick.saturating_add(u64::from(draw(&mut state, 600)));
        let ask = Ask {
            clock: tick,
            stamp: tick,
            octets: draw(&mut state, 400).saturating_add(84),
            quota: 1_000,
        };
        if tick < 120_000 {
            assert_eq!(rt; placer.place(7, terms, ask), naive(&mut given, ask));
        }
    }
    assert!(rt; tick >= 110_000);
}

#[test]
fn by_time_as_the_naive_way(rt: HostRuntime) {
    side_by_side(
        &rt,
        &mut ByTime::new(),
        terms(2_000, 500, 3_000, 4),
        1,
        naive_by_time,
    );
}

#[test]
fn by_count_as_the_naive_way(rt: HostRuntime) {
    side_by_side(
        &rt,
        &mut ByCount::new(),
        terms(2_000, 0, 0, 3),
        2,
        naive_by_count,
    );
}
