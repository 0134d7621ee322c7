ghost use Rattle.std.specs.Prelude.{◌≡◌, true, cond, Ok, Err, IfOk};
ghost use Rattle.book.specs.declared.faults.BookFault.TheVariants.{WrongState};
ghost use Rattle.book.specs.Sets.{numbers_of};
ghost use Rattle.book.specs.Sequences.{BookLaws};
ghost use Rattle.book.specs.Books.{state_of, new_book, lacks, held_by, hold_of, confirm_of, drop_of, release_of, advance_of};

use crate::faults::BookFault;
use crate::ledger::sums::Sums;
use crate::ledger::{Book, Note};
use crate::rows;
use crate::rows::{Booking, LAST_STREAM, Row, STREAMS};
use crate::setup::Settings;
use crate::ticks::LAST_TICK;

impl Book {
    // A new book: clock 0, all rows free. Its laws hold after every sequence of calls.
    pub fn make(settings: Settings) -> Book
        ensures state { state_of result ≡ new_book (numbers_of settings) }
        ensures laws { BookLaws (numbers_of settings) }
    {
        Book {
            settings,
            clock: 0,
            rows: [Row::Free; STREAMS],
        }
    }

    // The stream, the input or the class is not there.
    fn lacks(&self, stream: u8, booking: Booking) -> bool
        ensures { result ≡ lacks (state_of self.now) stream booking }
    {
        stream > LAST_STREAM
            || booking.input >= self.settings.input_count()
            || booking.class >= self.settings.class_count()
    }

    // Books a free row for a stream, if every class's sum stays within its cycle. The note is good in this book.
    #[tactic(auto, unfolding(crate::specs::Books::hold_of, crate::specs::Books::hold_fault))]
    pub fn hold(&mut self, stream: u8, booking: Booking) -> Result<Note, BookFault>
        ensures answer { result ≡ (hold_of (state_of self.old) stream booking).0 }
        ensures next { state_of self.new ≡ (hold_of (state_of self.old) stream booking).1 }
        ensures spendable { IfOk result (λ note. held_by (state_of self.new) note ≡ true) }
    {
        if self.lacks(stream, booking) {
            return Err(BookFault::NotThere);
        }
        if !booking.fits() {
            return Err(BookFault::BadLengths);
        }
        // The row is held in a copy, which is kept if the sums stay within.
        let mut rows = self.rows;
        rows[usize::from(stream)].hold(booking)?;
        let sums = Sums {
            settings: &self.settings,
            rows: &rows,
        };
        sums.check()?;
        self.rows = rows;
        Ok(Note {
            number: self.settings.number(),
            stream,
        })
    }

    // The row that the note names is held, and the note is this book's.
    fn is_held_by(&self, note: &Note) -> bool
        ensures { result ≡ held_by (state_of self.now) note.now }
    {
        note.number == self.settings.number() && matches!(self.row(note.stream), Ok(Row::Held(_)))
    }

    // Spends the note of a row that is held, and tells its stream. A refused note is handed back.
    fn spend(&self, note: Note) -> Result<u8, (BookFault, Note)>
        ensures { result ≡ cond (held_by (state_of self.now) note) (Ok note.stream) (Err (WrongState, note)) }
    {
        if !self.is_held_by(&note) {
            return Err((BookFault::WrongState, note));
        }
        let Note { number: _, stream } = note;
        Ok(stream)
    }

    // Spends the note of a hold and makes its row live. A refused note is handed back. What confirm and drop share is
    // spend; one function for both would take the row's step as a closure, with a longer contract.
    #[tactic(auto, using(crate::proofs::Within::keeps), unfolding(crate::specs::Books::confirm_of))]
    pub fn confirm(&mut self, note: Note) -> Result<(), (BookFault, Note)>
        ensures answer { result ≡ (confirm_of (state_of self.old) note).0 }
        ensures next { state_of self.new ≡ (confirm_of (state_of self.old) note).1 }
    {
        let stream = self.spend(note)?;
        self.rows[usize::from(stream)].confirm();
        Ok(())
    }

    // Spends the note of a hold and frees its row. A refused note is handed back.
    #[tactic(auto, using(crate::proofs::Within::keeps), unfolding(crate::specs::Books::drop_of))]
    pub fn drop_hold(&mut self, note: Note) -> Result<(), (BookFault, Note)>
        ensures answer { result ≡ (drop_of (state_of self.old) note).0 }
        ensures next { state_of self.new ≡ (drop_of (state_of self.old) note).1 }
    {
        let stream = self.spend(note)?;
        self.rows[usize::from(stream)].drop_hold();
        Ok(())
    }

    // Makes a live row leaving, and answers the cycle of its class from whose start on it is free.
    #[tactic(auto, using(crate::proofs::Within::keeps), unfolding(crate::specs::Books::release_of))]
    pub fn release(&mut self, stream: u8) -> Result<u64, BookFault>
        ensures answer { result ≡ (release_of (state_of self.old) stream).0 }
        ensures next { state_of self.new ≡ (release_of (state_of self.old) stream).1 }
    {
        if stream > LAST_STREAM {
            return Err(BookFault::NotThere);
        }
        // Copied, since the row is lent while it changes.
        let settings = self.settings;
        let clock = self.clock;
        self.rows[usize::from(stream)].release(&settings, clock)
    }

    // Moves the clock of a book that stands alone, and frees the leaving rows whose cycle has come.
    #[tactic(auto, unfolding(crate::specs::Books::advance_of))]
    pub fn advance(&mut self, until: u64) -> Result<(), BookFault>
        ensures answer { result ≡ (advance_of (state_of self.old) until).0 }
        ensures next { state_of self.new ≡ (advance_of (state_of self.old) until).1 }
    {
        if until < self.clock || until > LAST_TICK {
            return Err(BookFault::BadUntil);
        }
        rows::start_cycles(&mut self.rows, &self.settings, until);
        self.clock = until;
        Ok(())
    }
}
