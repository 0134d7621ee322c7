ghost use Rattle.std.specs.Prelude.{◌≡◌, ◌*◌, ◌≤◌, IfSome};
ghost use Rattle.book.specs.Sets.{numbers_of};
ghost use Rattle.placers.specs.Terms.{input_cycle, is_inside, current, shift_in, LegalTerms, terms_at};

use crate::terms::Terms;
use book::setup::{Class, Settings};
use book::ticks::{LAST_TICK, shift};

impl Terms {
    // The terms of a class and an input of checked settings, if both are there.
    pub fn of(settings: &Settings, class: u8, input: u8) -> Option<Terms>
        ensures terms { result ≡ terms_at (numbers_of settings.now) class input }
        ensures legal { IfSome result LegalTerms }
    {
        let class = settings.class(class)?;
        let phase = settings.phase(input)?;
        Some(Terms {
            cycle: class.cycle,
            phase: class.phase_in(phase),
            delay: settings.delay(),
            bins: class.bins,
        })
    }

    // The cycle of the class that holds a tick; always cycle 0 of a class without ticks.
    pub(crate) fn current(&self, tick: u64) -> u64
        ensures cycle { result ≡ current self.now tick }
        ensures bound { result ≤ tick }
        ensures start { result * self.now.cycle ≤ tick }
    {
        let class = Class {
            cycle: self.cycle,
            bins: self.bins,
        };
        class.cycle_at(tick)
    }

    // The input cycle that holds a tick.
    pub(crate) fn input_cycle(&self, tick: u64) -> u64
        ensures cycle { result ≡ input_cycle self.now tick }
        ensures bound { result ≤ tick }
        ensures start { result * self.now.cycle ≤ tick }
    {
        self.current(tick.saturating_sub(u64::from(self.phase)))
    }

    // A frame lies inside the input cycle of its stamp.
    pub(crate) fn is_inside(&self, stamp: u64, octets: u32) -> bool
        ensures { result ≡ is_inside self.now stamp octets }
    {
        if stamp > LAST_TICK || stamp < u64::from(self.phase) {
            return false;
        }
        let cycle = u64::from(self.cycle);
        let start = u64::from(self.phase) + self.input_cycle(stamp) * cycle;
        stamp + u64::from(octets) <= start + cycle
    }

    // The shift: how many cycles after its input cycle a frame leaves, late enough for the last hand-over.
    pub(crate) fn shift(&self) -> u64
        ensures value { result ≡ shift_in self.now }
        ensures bound { result ≤ 12884901888 }
    {
        shift(self.delay, self.cycle, self.phase)
    }
}
