// What a command answers: what was done, or why it was not.
ghost use Rattle.std.specs.Prelude.{◌≡◌};
ghost use Rattle.ecqf_port.specs.declared.answers.Refusal.TheVariants.{Book, Rack, Port, NoMemory};

use crate::kinds::Asked;
use racks::faults::RackFault;
use schedule::faults::PortFault;
use scripting::answers::{Done as BookDone, Refusal as BookRefusal};
use std::alloc::AllocError;

#[derive(Clone, Copy)]
pub enum Done {
    // What is done on a book alone, and on whatever has a book.
    Book(BookDone),
    // A port is to be set as asked; whoever carries the script out makes it.
    SetPort(Asked),
    Cycle(u64),
    TakenUntil(u64),
}

#[derive(Clone, Copy)]
pub enum Refusal {
    Book(BookRefusal),
    Rack(RackFault),
    Port(PortFault),
    PortRuns,
    // One of a rack and a placer is named, but not the other.
    NotUnderstood,
    // A book stands alone.
    NoPort,
    // Memory is wanting, and nothing was done.
    NoMemory,
}

impl From<BookRefusal> for Refusal {
    ghost from_gives = { λ f r. r ≡ Book f };

    fn from(refusal: BookRefusal) -> Refusal {
        Refusal::Book(refusal)
    }
}

impl From<RackFault> for Refusal {
    ghost from_gives = { λ f r. r ≡ Rack f };

    fn from(fault: RackFault) -> Refusal {
        Refusal::Rack(fault)
    }
}

impl From<PortFault> for Refusal {
    ghost from_gives = { λ f r. r ≡ Port f };

    fn from(fault: PortFault) -> Refusal {
        Refusal::Port(fault)
    }
}

impl From<AllocError> for Refusal {
    ghost from_gives = { λ f r. r ≡ NoMemory };

    fn from(_error: AllocError) -> Refusal {
        Refusal::NoMemory
    }
}
