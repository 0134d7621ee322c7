// What the calls read of the settings: terms and the numbers of bins, and which lengths are of frames.
ghost use Rattle.std.specs.Prelude.{◌≡◌, ◌*◌, ◌<◌, ◌≤◌, slice_index_or};
ghost use Rattle.book.specs.Ticks.{inside};
ghost use Rattle.book.specs.Told.{no_class, bins_of};
ghost use Rattle.book.specs.Sets.{numbers_of};
ghost use Rattle.placers.specs.Terms.{terms_of};
ghost use Rattle.schedule.specs.Bins.{bins_before, bin_of};

use book::frames;
use book::setup::{Class, Settings};
use placers::terms::Terms;

// The length of a frame, up to a longest.
pub(crate) fn is_length(length: u16, longest: u16) -> bool
    ensures { result ≡ inside 64 longest length }
{
    (frames::SHORTEST..=longest).contains(&length)
}

// A class of the settings by its number, whether it is there or not.
#[derive(Clone, Copy)]
pub(crate) struct ClassAt<'a> {
    pub(crate) settings: &'a Settings,
    pub(crate) number: u8,
}

impl ClassAt<'_> {
    // Without ticks and bins where it is not there.
    pub(crate) fn class(&self) -> Class
        ensures { result ≡ slice_index_or (numbers_of self.now.settings.now).classes self.now.number no_class }
    {
        self.settings.class(self.number).unwrap_or_default()
    }

    // The terms by which the placer goes. Terms::of gives none where the class or the input is not there; those of a row always
    // are, but only the history of the port shows it.
    pub(crate) fn terms(&self, input: u8) -> Terms
        ensures { result ≡ terms_of (numbers_of self.now.settings.now) self.now.number input }
    {
        let class = self.class();
        let phase = self.settings.phase(input).unwrap_or_default();
        Terms {
            cycle: class.cycle,
            phase: class.phase_in(phase),
            delay: self.settings.delay(),
            bins: class.bins,
        }
    }

    // The bins of the faster classes stand before those of the class.
    fn bins_before(&self) -> u32
        ensures sum { result ≡ bins_before (numbers_of self.now.settings.now) self.now.number }
        ensures bound { result ≤ 255 * 255 }
    {
        let mut before: u32 = 0;
        // A loop and no chain: that the sum stays small is shown class by class, and for a chain it did not close.
        for number in 0..self.number {
            let faster = ClassAt {
                settings: self.settings,
                number,
            };
            before += u32::from(faster.class().bins);
        }
        before
    }

    // The bin of a cycle, where the class is there.
    pub(crate) fn bin_of(&self, cycle: u64) -> u32
        ensures { 0 < bins_of (numbers_of self.now.settings.now) self.now.number → result ≡ bin_of (numbers_of self.now.settings.now) self.now.number cycle }
    {
        let bins = u64::from(self.class().bins);
        let within = cycle.checked_rem(bins).unwrap_or(0);
        self.bins_before() + within as u32
    }
}
