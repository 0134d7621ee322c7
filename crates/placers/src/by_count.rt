ghost use Rattle.placers.specs.Counted.{counted, FindsEarliest};
ghost use Rattle.placers.specs.Keeping.Counts.{count-duties, finds-earliest};

use crate::by_rule::{ByRule, Rule};
use crate::faults::PlacerFault;
use crate::table::Latest;
use crate::terms::{Ask, Terms};
use book::ticks::LAST_TICK;

// Counts the octets in the last cycle: a frame goes into the earliest cycle that has room.
#[derive(Clone, Copy)]
pub struct Counting;

// Places into the earliest cycle that has room, in the same few steps for every frame.
pub type ByCount = ByRule<Counting>;

impl Rule for Counting {
    ghost next = { counted };

    ghost duties = { count-duties };

    ghost Promise = { FindsEarliest };

    ghost promised = { finds-earliest };

    fn next(latest: Latest, terms: Terms, ask: Ask) -> Result<Latest, PlacerFault> {
        if ask.clock > LAST_TICK {
            return Err(PlacerFault::NoRoom);
        }
        let current = terms.current(ask.clock);
        let reach = current + u64::from(terms.bins);
        let first = latest.first_after(current);
        if first >= reach {
            return Err(PlacerFault::NoRoom);
        }
        let cycle = latest.earliest(first, ask);
        if cycle >= reach {
            return Err(PlacerFault::NoRoom);
        }
        latest.add(cycle, ask)
    }
}
