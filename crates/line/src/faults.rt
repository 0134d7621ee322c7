ghost use Rattle.std.specs.Prelude.{◌≡◌};
ghost use Rattle.line.specs.declared.faults.LineFault.TheVariants.{AtLeg};
ghost use Rattle.line.specs.Faults.{number_of};

use book::faults::BookFault;

// A hold that a leg's book refused: the place of the leg on the path, from 0, and the book's fault.
#[derive(Clone, Copy, PartialEq, Eq, Debug)]
pub struct LegFault {
    pub place: usize,
    pub fault: BookFault,
}

// Why a path is not booked.
#[derive(Clone, Copy, PartialEq, Eq, Debug)]
pub enum LineFault {
    // The legs are not 1 to 16, a module is not there or comes twice, or cycle times differ.
    NoPath,
    // A leg's book refuses.
    AtLeg(LegFault),
}

impl LineFault {
    // The number by which a refusal is known.
    pub fn number(&self) -> u8
        ensures { result ≡ number_of self.now }
    {
        match self {
            LineFault::NoPath => 18,
            LineFault::AtLeg(leg) => leg.fault.number(),
        }
    }
}

impl From<LegFault> for LineFault {
    ghost from_gives = { λ e r. r ≡ AtLeg e };

    fn from(e: LegFault) -> LineFault {
        LineFault::AtLeg(e)
    }
}
