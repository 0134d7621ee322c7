ghost use Rattle.std.specs.Prelude.{◌≡◌};
ghost use Rattle.placers.specs.Faults.{number_of};

// Why a frame gets no cycle.
#[derive(Clone, Copy, PartialEq, Eq, Debug)]
pub enum PlacerFault {
    // A stream above 127.
    NotThere,
    // The frame lies inside no input cycle.
    NotInside,
    // The quota is passed, or the cycle that has room is out of reach.
    NoRoom,
}

impl PlacerFault {
    // The number by which a refusal is known.
    pub fn number(&self) -> u8
        ensures { result ≡ number_of self.now }
    {
        match self {
            PlacerFault::NotThere => 5,
            PlacerFault::NotInside => 13,
            PlacerFault::NoRoom => 14,
        }
    }
}
