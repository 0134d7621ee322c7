ghost use Rattle.std.specs.Prelude.{◌≡◌};

use book::rows::Booking;

// One module of a path: its number on the line, the input that the stream comes in by, and the class that it takes there.
#[derive(Clone, Copy, PartialEq, Eq, Debug)]
pub struct Leg {
    pub number: u8,
    pub input: u8,
    pub class: u8,
}

// What a path asks of each of its modules: the same longest frame and quota for the stream.
#[derive(Clone, Copy, PartialEq, Eq, Debug)]
pub struct Request {
    pub stream: u8,
    pub longest: u16,
    pub quota: u32,
}

impl Request {
    ghost use Rattle.line.specs.Paths.{booking_at};

    // What is booked at a leg.
    pub(crate) fn booking(&self, leg: &Leg) -> Booking
        ensures { result ≡ booking_at self.now leg.now }
    {
        Booking {
            input: leg.input,
            class: leg.class,
            longest: self.longest,
            quota: self.quota,
        }
    }
}
