ghost use Rattle.std.specs.Prelude.{◌≡◌};
ghost use Rattle.book.specs.Faults.{number_of};

// Why a call on a book is refused; the first rule broken is named.
#[derive(Clone, Copy, PartialEq, Eq, Debug)]
pub enum BookFault {
    // The classes are not 1 to 4, or the inputs not 1 to 8.
    NotInNumber,
    // A number is outside its limits.
    OutOfLimits,
    // A class has fewer bins than an input needs.
    TooFewBins,
    // A stream above 127, or an input or a class that is not there.
    NotThere,
    // The longest frame is not 64 to 1,522 octets, or the quota does not hold one.
    BadLengths,
    // The row is not in the state that the call needs.
    WrongState,
    // The bookings of a class pass its cycle, by so many ticks; the lowest such class.
    Over { class: u8, ticks: u64 },
    // The clock would go back, or past its last tick.
    BadUntil,
}

impl BookFault {
    // The number by which a refusal is known.
    pub fn number(&self) -> u8
        ensures { result ≡ number_of self.now }
    {
        match self {
            BookFault::NotInNumber => 1,
            BookFault::OutOfLimits => 2,
            BookFault::TooFewBins => 3,
            BookFault::NotThere => 5,
            BookFault::BadLengths => 6,
            BookFault::WrongState => 7,
            BookFault::Over { .. } => 8,
            BookFault::BadUntil => 16,
        }
    }
}
