ghost use Rattle.std.specs.Prelude.{◌≡◌};
ghost use Rattle.schedule.specs.declared.faults.PortFault.TheVariants.{Settings, Placing};
ghost use Rattle.schedule.specs.Faults.{number_of, layer_of};

use book::faults::BookFault;
use placers::faults::PlacerFault;

// The part of a module that refuses.
#[derive(Clone, Copy, PartialEq, Eq, Debug)]
pub enum Layer {
    Port,
    Placer,
}

// Why a call on a port is refused; the first rule broken is named. Bookings are refused by the port's book itself.
#[derive(Clone, Copy, PartialEq, Eq, Debug)]
pub enum PortFault {
    // The settings break a rule of set.
    Settings(BookFault),
    // The rack has too few bins or places for the settings, or holds a load.
    BadRack,
    // A stream above 127, or an input that is not there.
    NotThere,
    // The row of the stream is not live.
    NotLive,
    // The input is not that of the row.
    WrongInput,
    // The length is not from 64 to the longest.
    BadLength,
    // The stamp is after the clock, or longer before it than the longest hand-over delay.
    BadStamp,
    // The stamp is before the last that was accepted of the stream since its confirm.
    StampBack,
    // The placer gives the frame no cycle.
    Placing(PlacerFault),
    // The wire is taken, or a current bin holds a load.
    WireTaken,
    // The clock would go back, or past its last tick.
    BadUntil,
    // The list of departures is shorter than the most that can come.
    ShortList,
}

impl PortFault {
    // The number by which a refusal is known.
    pub fn number(&self) -> u8
        ensures { result ≡ number_of self.now }
    {
        match self {
            PortFault::Settings(fault) => fault.number(),
            PortFault::BadRack => 4,
            PortFault::NotThere => 5,
            PortFault::NotLive => 7,
            PortFault::WrongInput => 9,
            PortFault::BadLength => 10,
            PortFault::BadStamp => 11,
            PortFault::StampBack => 12,
            PortFault::Placing(fault) => fault.number(),
            PortFault::WireTaken => 15,
            PortFault::BadUntil => 16,
            PortFault::ShortList => 17,
        }
    }

    pub fn layer(&self) -> Layer
        ensures { result ≡ layer_of self.now }
    {
        match self {
            PortFault::Placing(_) => Layer::Placer,
            _ => Layer::Port,
        }
    }
}

// What the settings or the placer refuse rises through a port by `?`, whole.
impl From<BookFault> for PortFault {
    ghost from_gives = { λ f r. r ≡ Settings f };

    fn from(fault: BookFault) -> PortFault {
        PortFault::Settings(fault)
    }
}

impl From<PlacerFault> for PortFault {
    ghost from_gives = { λ f r. r ≡ Placing f };

    fn from(fault: PlacerFault) -> PortFault {
        PortFault::Placing(fault)
    }
}
