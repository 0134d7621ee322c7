ghost use Rattle.std.specs.Prelude.{◌≡◌};
ghost use Rattle.racks.specs.Faults.{number_of};

// Why a call on a rack is refused; the first rule broken is named.
#[derive(Clone, Copy, PartialEq, Eq, Debug)]
pub enum RackFault {
    // The bins are not 1 to 32, or the depth or the total not 1 to 2^20.
    OutOfLimits,
    // The lent list has fewer places than the rack needs.
    TooFewPlaces,
    // A bin that is not there.
    NotThere,
    // The bin holds depth loads, or all bins together hold total.
    Full,
}

impl RackFault {
    // The number by which a refusal is known.
    pub fn number(&self) -> u8
        ensures { result ≡ number_of self.now }
    {
        match self {
            RackFault::OutOfLimits => 2,
            RackFault::TooFewPlaces => 4,
            RackFault::NotThere => 5,
            RackFault::Full => 19,
        }
    }
}
