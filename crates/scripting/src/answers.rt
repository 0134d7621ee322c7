// What a command answers: what was done, or why it was not.
ghost use Rattle.std.specs.Prelude.{◌≡◌};
ghost use Rattle.scripting.specs.declared.answers.Refusal.TheVariants.{Book};

use book::faults::BookFault;
use book::rows::STREAMS;

#[derive(Clone, Copy)]
pub enum Done {
    Noted,
    // A book was set; the notes of these streams were dropped for it.
    Set { dropped: [bool; STREAMS] },
    Held,
    Live,
    Free,
    LeavingUntil(u64),
    Clock(u64),
    Bins(u32),
    Shown,
}

#[derive(Clone, Copy)]
pub enum Refusal {
    Book(BookFault),
    NoNote,
    NothingSet,
}

impl From<BookFault> for Refusal {
    ghost from_gives = { λ f r. r ≡ Book f };

    fn from(fault: BookFault) -> Refusal {
        Refusal::Book(fault)
    }
}
