ghost use Rattle.std.specs.Prelude.{◌≡◌, ℕ, length, ◌&&◌, nat_le};
ghost use Rattle.book.specs.Ticks.{inside};
ghost use Rattle.book.specs.Told.{told_by, class_count, whole_times, step_after, all_below, class_fits, phase_fits, serves, serves_all, in_number, within_limits, enough_bins};
ghost use Rattle.book.specs.Sets.{Checked};

use crate::faults::BookFault;
use crate::setup::few::Few;
use crate::setup::{Class, MOST_CLASSES, MOST_INPUTS, Settings, Setup};
use crate::{frames, ticks};

// The dead time leaves this much of the first cycle: the longest frame and the shortest, on the wire.
const BESIDE_DEAD_TIME: u32 = frames::LONGEST_ON_WIRE + frames::SHORTEST_ON_WIRE;

// A cycle that is a whole 2 to 64 times the one before.
fn whole_times(before: u32, cycle: u32) -> bool
    ensures { result ≡ whole_times before cycle }
{
    before != 0 && cycle % before == 0 && (2..=64).contains(&(cycle / before))
}

impl Class {
    // Within the limits, as the class that comes after one with that cycle, or as the first.
    fn fits_after(&self, before: Option<u32>) -> bool
        ensures { result ≡ (nat_le self.now.cycle 1048576 && inside 2 8 self.now.bins && step_after before self.now.cycle) }
    {
        self.cycle <= ticks::LONGEST_CYCLE
            && (2..=8).contains(&self.bins)
            && match before {
                Some(before) => whole_times(before, self.cycle),
                None => self.cycle >= ticks::SHORTEST_CYCLE,
            }
    }

    // The bins are enough for an input of that phase.
    fn serves(&self, delay: u32, phase: u32) -> bool
        ensures { result ≡ serves delay self.now phase }
    {
        ticks::shift(delay, self.cycle, self.phase_in(phase)) + 1 <= u64::from(self.bins)
    }

    fn serves_all(&self, delay: u32, phases: &[u32]) -> bool
        ensures { result ≡ serves_all delay phases.now self.now }
    {
        phases.iter().all(|phase| self.serves(delay, *phase))
    }
}

// The three rules of set.
impl Setup<'_> {
    // 1 to 4 classes and 1 to 8 inputs.
    fn in_number(&self) -> bool
        ensures { result ≡ in_number (told_by self.now) }
    {
        (1..=MOST_CLASSES).contains(&self.classes.len())
            && (1..=MOST_INPUTS).contains(&self.phases.len())
    }

    #[tactic(auto, unfolding(crate::specs::Told::all_below))]
    fn classes_fit(&self) -> bool
        ensures { result ≡ all_below (class_fits self.now.classes.now) (length self.now.classes.now) }
    {
        let mut before = None;
        for class in self.classes {
            if !class.fits_after(before) {
                return false;
            }
            before = Some(class.cycle);
        }
        true
    }

    // Every phase is below the slowest cycle.
    fn phases_fit(&self) -> bool
        ensures { result ≡ all_below (phase_fits self.now.classes.now self.now.phases.now) (length self.now.phases.now) }
    {
        let slowest = self.classes.last().copied().unwrap_or_default().cycle;
        self.phases.iter().all(|phase| *phase < slowest)
    }

    fn within_limits(&self) -> bool
        ensures { result ≡ within_limits (told_by self.now) }
    {
        let fastest = self.classes.first().copied().unwrap_or_default().cycle;
        self.delay <= ticks::LONGEST_DELAY
            && u64::from(self.dead_time) + u64::from(BESIDE_DEAD_TIME) <= u64::from(fastest)
            && self.classes_fit()
            && self.phases_fit()
    }

    fn enough_bins(&self) -> bool
        ensures { result ≡ enough_bins (told_by self.now) }
    {
        self.classes
            .iter()
            .all(|class| class.serves_all(self.delay, self.phases))
    }
}

impl Settings {
    // Settings for a book of that number, or the first rule of set that is broken.
    pub fn check(setup: &Setup) -> Result<Settings, BookFault>
        ensures { Checked (told_by setup.now) result }
    {
        if !setup.in_number() {
            return Err(BookFault::NotInNumber);
        }
        if !setup.within_limits() {
            return Err(BookFault::OutOfLimits);
        }
        if !setup.enough_bins() {
            return Err(BookFault::TooFewBins);
        }
        Ok(Settings {
            number: setup.number,
            delay: setup.delay,
            dead_time: setup.dead_time,
            classes: Few::of(setup.classes),
            phases: Few::of(setup.phases),
        })
    }
}
