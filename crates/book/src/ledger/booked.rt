// The calls on a book, on whatever has one.
ghost use Rattle.std.specs.Prelude.{◌≡◌, true, IfOk};
ghost use Rattle.book.specs.Books.{BookState, state_of, held_by, hold_of, confirm_of, drop_of, release_of};

use crate::faults::BookFault;
use crate::ledger::{Book, Note};
use crate::rows::Booking;

// What has a book: a book itself, or what keeps one beside other things. The calls do to it what a book's do.
pub trait Booked {
    ghost book: { Self → BookState };

    fn hold(&mut self, stream: u8, booking: Booking) -> Result<Note, BookFault>
        ensures answer { result ≡ (hold_of (book self.old) stream booking).0 }
        ensures next { book self.new ≡ (hold_of (book self.old) stream booking).1 }
        ensures spendable { IfOk result (λ note. held_by (book self.new) note ≡ true) };

    fn confirm(&mut self, note: Note) -> Result<(), (BookFault, Note)>
        ensures answer { result ≡ (confirm_of (book self.old) note).0 }
        ensures next { book self.new ≡ (confirm_of (book self.old) note).1 };

    fn drop_hold(&mut self, note: Note) -> Result<(), (BookFault, Note)>
        ensures answer { result ≡ (drop_of (book self.old) note).0 }
        ensures next { book self.new ≡ (drop_of (book self.old) note).1 };

    fn release(&mut self, stream: u8) -> Result<u64, BookFault>
        ensures answer { result ≡ (release_of (book self.old) stream).0 }
        ensures next { book self.new ≡ (release_of (book self.old) stream).1 };
}

impl Booked for Book {
    ghost book = { state_of };

    fn hold(&mut self, stream: u8, booking: Booking) -> Result<Note, BookFault> {
        Book::hold(self, stream, booking)
    }

    fn confirm(&mut self, note: Note) -> Result<(), (BookFault, Note)> {
        Book::confirm(self, note)
    }

    fn drop_hold(&mut self, note: Note) -> Result<(), (BookFault, Note)> {
        Book::drop_hold(self, note)
    }

    fn release(&mut self, stream: u8) -> Result<u64, BookFault> {
        Book::release(self, stream)
    }
}
