// The racks and placers that a script can name.
ghost use Rattle.std.specs.Prelude.{◌≡◌};
ghost use Rattle.std.specs.Result.{result_err};
ghost use Rattle.ecqf_port.specs.Kinds.{rack_fault, rack_kind_in, placer_kind_in};

use loads::marks::Mark;
use racks::faults::RackFault;
use racks::plan::{Numbers, check_rows};
use scripting::words::{FromWord, is};

#[derive(Clone, Copy)]
pub enum RackKind {
    Rows,
    Cells,
}

// A rack with its numbers.
#[derive(Clone, Copy)]
pub struct RackChoice {
    pub kind: RackKind,
    pub numbers: Numbers,
}

#[derive(Clone, Copy)]
pub enum PlacerKind {
    ByTime,
    ByCount,
}

// What a set asks for that sets a port.
#[derive(Clone, Copy)]
pub struct Asked {
    pub rack: RackChoice,
    pub placer: PlacerKind,
    pub delay: u32,
    pub dead_time: u32,
}

// Two kinds and their names; a match on the names would leave a goal for each byte in which a word may differ.
impl FromWord for RackKind {
    ghost says = { rack_kind_in };

    fn from_word(word: &[u8]) -> Option<RackKind> {
        if is(word, b"rows") {
            Some(RackKind::Rows)
        } else if is(word, b"cells") {
            Some(RackKind::Cells)
        } else {
            None
        }
    }
}

impl FromWord for PlacerKind {
    ghost says = { placer_kind_in };

    fn from_word(word: &[u8]) -> Option<PlacerKind> {
        if is(word, b"time") {
            Some(PlacerKind::ByTime)
        } else if is(word, b"count") {
            Some(PlacerKind::ByCount)
        } else {
            None
        }
    }
}

impl RackChoice {
    // Why no such rack can be made, whatever places it is lent: both kinds have the same limits.
    pub fn check(self) -> Result<(), RackFault>
        ensures { result_err result ≡ rack_fault self }
    {
        let places: [Mark; 0] = [];
        match check_rows(self.numbers, &places) {
            Ok(_) | Err(RackFault::TooFewPlaces) => Ok(()),
            Err(fault) => Err(fault),
        }
    }
}
