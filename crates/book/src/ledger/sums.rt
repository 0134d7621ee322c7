// What bookings take of the cycles of the classes.
ghost use Rattle.std.specs.Prelude.{◌≡◌, ◌<◌};
ghost use Rattle.book.specs.Faults.{unless};
ghost use Rattle.book.specs.Told.{class_count};
ghost use Rattle.book.specs.Sets.{numbers_of};
ghost use Rattle.book.specs.Sums.{demand, over_at, over_fault};

use crate::faults::BookFault;
use crate::rows::{Row, STREAMS};
use crate::setup::Settings;
use crate::{frames, rows};

// The bookings of rows under settings.
#[derive(Clone, Copy)]
pub(crate) struct Sums<'a> {
    pub(crate) settings: &'a Settings,
    pub(crate) rows: &'a [Row; STREAMS],
}

impl Sums<'_> {
    // The ticks that a cycle of a class must have.
    #[tactic(auto, unfolding(crate::specs::Sums::weighed))]
    pub(crate) fn demand(&self, class: u8) -> u64
        requires { class < class_count (numbers_of self.now.settings.now) }
        ensures { result ≡ demand (numbers_of self.now.settings.now) self.now.rows.now class }
    {
        let mut sum = u64::from(frames::LONGEST_ON_WIRE) + u64::from(self.settings.dead_time());
        // A loop and no chain: that the sum fits is shown turn by turn, and for a chain it did not close. Without its last class,
        // since a range that has it ends in two ways.
        for faster in 0..class + 1 {
            sum += self.settings.times(class, faster) * rows::booked(self.rows, faster);
        }
        sum
    }

    // The class's demand is within its cycle.
    fn check_class(&self, class: u8) -> Result<(), BookFault>
        requires { class < class_count (numbers_of self.now.settings.now) }
        ensures { result ≡ unless (over_at (numbers_of self.now.settings.now) self.now.rows.now class) }
    {
        let cycle = u64::from(self.settings.cycle(class));
        let needed = self.demand(class);
        if needed > cycle {
            return Err(BookFault::Over {
                class,
                ticks: needed - cycle,
            });
        }
        Ok(())
    }

    // Every class's demand is within its cycle. A refusal names the lowest class that fails.
    #[tactic(auto, unfolding(crate::specs::Sums::over_below))]
    pub(crate) fn check(&self) -> Result<(), BookFault>
        ensures { result ≡ unless (over_fault (numbers_of self.now.settings.now) self.now.rows.now) }
    {
        // A class is told by its number, which the refusal names.
        for class in 0..self.settings.class_count() {
            self.check_class(class)?;
        }
        Ok(())
    }
}
