ghost use Rattle.placers.specs.Timed.{timed, TellsInput};
ghost use Rattle.placers.specs.Keeping.Times.{time-duties, tells-input};

use crate::by_rule::{ByRule, Rule};
use crate::faults::PlacerFault;
use crate::table::Latest;
use crate::terms::{Ask, Terms};

// Goes by the stamp: a frame leaves so many cycles after the input cycle in which it came in.
#[derive(Clone, Copy)]
pub struct Timing;

// Places by the input cycle in which a frame came in.
pub type ByTime = ByRule<Timing>;

impl Rule for Timing {
    ghost next = { timed };

    ghost duties = { time-duties };

    ghost Promise = { TellsInput };

    ghost promised = { tells-input };

    fn next(latest: Latest, terms: Terms, ask: Ask) -> Result<Latest, PlacerFault> {
        let stamp = ask.stamp;
        if !terms.is_inside(stamp, ask.octets) {
            return Err(PlacerFault::NotInside);
        }
        let cycle = terms.input_cycle(stamp) + terms.shift();
        latest.add(cycle, ask)
    }
}
