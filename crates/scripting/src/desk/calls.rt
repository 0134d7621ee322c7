ghost use Rattle.std.specs.Prelude.{◌≡◌, ℕ, ◌<◌, None, Some};
ghost use Rattle.std.specs.Option.{option_map};
ghost use Rattle.book.specs.Sets.{numbers_of};
ghost use Rattle.book.specs.Books.{state_of, new_book};
ghost use Rattle.scripting.specs.Notes.{place_of, in_hand};
ghost use Rattle.scripting.specs.Calls.{hold_done, confirm_done, drop_done, release_done, call_done, advance_done};

use crate::answers::{Done, Refusal};
use crate::desk::Desk;
use crate::script::Call;
use book::ledger::Book;
use book::ledger::booked::Booked;
use book::rows::{Booking, STREAMS};
use book::setup::Settings;

impl<M: Booked> Desk<M> {
    fn hold(&mut self, stream: u8, booking: Booking) -> Result<Done, Refusal>
        ensures answer { result ≡ (hold_done (option_map M.book self.old.module) stream booking).0 }
        ensures next { option_map M.book self.new.module ≡ (hold_done (option_map M.book self.old.module) stream booking).1 }
    {
        let Some(module) = &mut self.module else {
            return Err(Refusal::NothingSet);
        };
        let note = module.hold(stream, booking)?;
        self.notes.put(stream, note);
        Ok(Done::Held)
    }

    // Confirm and drop differ in a call and in an answer. One function for both would take the call as a closure, and the
    // clauses that say what it must do to a module are longer than the few lines that stand twice.
    fn confirm(&mut self, stream: u8) -> Result<Done, Refusal>
        ensures answer { result ≡ (confirm_done (option_map M.book self.old.module) stream).0 }
        ensures next { option_map M.book self.new.module ≡ (confirm_done (option_map M.book self.old.module) stream).1 }
    {
        let Some(module) = &mut self.module else {
            return Err(Refusal::NothingSet);
        };
        let Some(note) = self.notes.take(stream) else {
            return Err(Refusal::NoNote);
        };
        match module.confirm(note) {
            Ok(()) => Ok(Done::Live),
            Err(_) => unreachable(),
        }
    }

    fn drop_note(&mut self, stream: u8) -> Result<Done, Refusal>
        ensures answer { result ≡ (drop_done (option_map M.book self.old.module) stream).0 }
        ensures next { option_map M.book self.new.module ≡ (drop_done (option_map M.book self.old.module) stream).1 }
    {
        let Some(module) = &mut self.module else {
            return Err(Refusal::NothingSet);
        };
        let Some(note) = self.notes.take(stream) else {
            return Err(Refusal::NoNote);
        };
        match module.drop_hold(note) {
            Ok(()) => Ok(Done::Free),
            Err(_) => unreachable(),
        }
    }

    fn release(&mut self, stream: u8) -> Result<Done, Refusal>
        ensures answer { result ≡ (release_done (option_map M.book self.old.module) stream).0 }
        ensures next { option_map M.book self.new.module ≡ (release_done (option_map M.book self.old.module) stream).1 }
    {
        let Some(module) = &mut self.module else {
            return Err(Refusal::NothingSet);
        };
        let cycle = module.release(stream)?;
        Ok(Done::LeavingUntil(cycle))
    }

    // Carries a call out.
    pub fn carry_out(&mut self, call: Call) -> Result<Done, Refusal>
        ensures answer { result ≡ (call_done (option_map M.book self.old.module) call).0 }
        ensures next { option_map M.book self.new.module ≡ (call_done (option_map M.book self.old.module) call).1 }
    {
        match call {
            Call::Hold { stream, booking } => self.hold(stream, booking),
            Call::Confirm(stream) => self.confirm(stream),
            Call::Drop(stream) => self.drop_note(stream),
            Call::Release(stream) => self.release(stream),
        }
    }

    // Drops the notes in hand, by rising stream, and answers whose they were.
    pub(crate) fn drop_all(&mut self) -> [bool; STREAMS]
        ensures dropped { result ≡ in_hand (option_map M.book self.old.module) }
        ensures none { (s : ℕ) → s < 128 → place_of self.new.notes s ≡ None }
    {
        let mut dropped = [false; STREAMS];
        // The number of a stream is what a call is told; a closure that changes the desk would leave its steps to prove.
        for stream in 0..128 {
            dropped[stream as usize] = self.drop_note(stream).is_ok();
        }
        dropped
    }
}

impl<M: Booked + Drop> Desk<M> {
    // No module is set any more: drops what is in hand, by rising stream, and answers whose notes those were.
    pub(crate) fn clear(&mut self) -> [bool; STREAMS]
        ensures dropped { result ≡ in_hand (option_map M.book self.old.module) }
        ensures next { option_map M.book self.new.module ≡ None }
    {
        let dropped = self.drop_all();
        self.module = None;
        dropped
    }

    // Drops what is in hand, by rising stream, and answers whose notes those were.
    pub fn close(mut self) -> [bool; STREAMS]
        ensures { result ≡ in_hand (option_map M.book self.module) }
    {
        let left = self.drop_all();
        let Desk { module: _, notes } = self;
        notes.end();
        left
    }
}

impl Desk<Book> {
    // Sets a new book: drops what is in hand, by rising stream, and answers whose notes those were.
    pub(crate) fn set(&mut self, settings: Settings) -> [bool; STREAMS]
        ensures dropped { result ≡ in_hand (option_map state_of self.old.module) }
        ensures next { option_map state_of self.new.module ≡ Some (new_book (numbers_of settings)) }
    {
        let dropped = self.drop_all();
        self.module = Some(Book::make(settings));
        dropped
    }

    // Moves the clock of a book that stands alone.
    pub(crate) fn advance(&mut self, until: u64) -> Result<Done, Refusal>
        ensures answer { result ≡ (advance_done (option_map state_of self.old.module) until).0 }
        ensures next { option_map state_of self.new.module ≡ (advance_done (option_map state_of self.old.module) until).1 }
    {
        let Some(book) = &mut self.module else {
            return Err(Refusal::NothingSet);
        };
        book.advance(until)?;
        Ok(Done::Clock(until))
    }
}
