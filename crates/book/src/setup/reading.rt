ghost use Rattle.std.specs.Prelude.{◌≡◌, ◌/◌, ◌%◌, ◌≤◌};
ghost use Rattle.book.specs.Ticks.{cycle_at};
ghost use Rattle.book.specs.Told.{cycle_of, bins_of, class_count, input_count};
ghost use Rattle.book.specs.Sets.{numbers_of, class_at, phase_at};

use crate::setup::{Class, Settings};

impl Class {
    // The cycle that holds a tick; always cycle 0 of a class without ticks.
    pub fn cycle_at(&self, tick: u64) -> u64
        ensures { result ≡ cycle_at self.now.cycle tick }
    {
        tick.checked_div(u64::from(self.cycle)).unwrap_or(0)
    }

    // A phase in the cycles of the class; the phase itself in those of a class without ticks.
    pub fn phase_in(&self, phase: u32) -> u32
        ensures { result ≡ phase % self.now.cycle }
    {
        phase.checked_rem(self.cycle).unwrap_or(phase)
    }
}

impl Settings {
    pub fn number(&self) -> u64
        ensures { result ≡ (numbers_of self.now).number }
    {
        self.number
    }

    // The longest hand-over delay.
    pub fn delay(&self) -> u32
        ensures { result ≡ (numbers_of self.now).delay }
    {
        self.delay
    }

    // The dead time before each cycle's end.
    pub fn dead_time(&self) -> u32
        ensures { result ≡ (numbers_of self.now).dead_time }
    {
        self.dead_time
    }

    pub fn class_count(&self) -> u8
        ensures { result ≡ class_count (numbers_of self.now) }
    {
        self.classes.len() as u8
    }

    pub fn input_count(&self) -> u8
        ensures { result ≡ input_count (numbers_of self.now) }
    {
        self.phases.len() as u8
    }

    // The classes, from the fastest on.
    pub fn classes(&self) -> &[Class]
        ensures { result.now ≡ (numbers_of self.now).classes }
    {
        self.classes.as_slice()
    }

    // A class by its number, if it is there.
    pub fn class(&self, class: u8) -> Option<Class>
        ensures { result ≡ class_at (numbers_of self.now) class }
    {
        self.classes.get(class)
    }

    // The phase of an input by its number, if it is there.
    pub fn phase(&self, input: u8) -> Option<u32>
        ensures { result ≡ phase_at (numbers_of self.now) input }
    {
        self.phases.get(input)
    }

    // The cycle time and the bins of a class; 0 where it is not there.
    pub(crate) fn cycle(&self, class: u8) -> u32
        ensures { result ≡ cycle_of (numbers_of self.now) class }
    {
        self.class(class).unwrap_or_default().cycle
    }

    pub(crate) fn bins(&self, class: u8) -> u8
        ensures { result ≡ bins_of (numbers_of self.now) class }
    {
        self.class(class).unwrap_or_default().bins
    }

    // The cycle of a class that holds a tick; always cycle 0 of a class that is not there.
    pub(crate) fn cycle_at(&self, class: u8, tick: u64) -> u64
        ensures { result ≡ cycle_at (cycle_of (numbers_of self.now) class) tick }
    {
        self.class(class).unwrap_or_default().cycle_at(tick)
    }

    // How often the cycle of a faster class comes in that of a slower one.
    pub(crate) fn times(&self, slower: u8, faster: u8) -> u64
        ensures value { result ≡ cycle_of (numbers_of self.now) slower / cycle_of (numbers_of self.now) faster }
        ensures bound { result ≤ 1048576 }
    {
        let times = self.cycle(slower).checked_div(self.cycle(faster));
        u64::from(times.unwrap_or(0))
    }
}
