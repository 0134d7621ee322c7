ghost use Rattle.std.specs.Prelude.{◌≡◌, ℕ, suc, true, IfOk, nat_lt};
ghost use Rattle.book.specs.Sets.{class_at};
ghost use Rattle.book.specs.Books.{held_by, hold_of, confirm_of, drop_of, release_of};
ghost use Rattle.schedule.specs.Histories.{Hold, Confirm, DropHold, Release};
ghost use Rattle.line.specs.Banks.{Meaning, States, Standing, ahead, state_ahead, stand_ahead, nothing, no_module, Changed};

use crate::modules::Module;
use book::faults::BookFault;
use book::ledger::Note;
use book::rows::{Booking, LAST_STREAM};
use book::setup::Class;

// Modules told by their numbers, from 0, as nested pairs. A call says what it does to the module named, and that no other
// changes. A number that no module has is answered as by a module without classes, inputs and rows.
pub trait Bank {
    ghost size: { ℕ };

    ghost meanings: { ℕ → Meaning };

    ghost states: { Self → States meanings };

    // After which history each module stands.
    ghost stands: { Self → Standing meanings };

    // A module has that number.
    fn has(&self, number: u8) -> bool
        ensures { result ≡ nat_lt number size };

    fn class(&self, number: u8, class: u8) -> Option<Class>
        ensures { result ≡ class_at (states self.now number).book.settings class };

    // The clauses spell out histories and states before and after: a trait cannot import a definition over its own members.
    fn hold(&mut self, number: u8, stream: u8, booking: Booking) -> Result<Note, BookFault>
        ensures answer { result ≡ (hold_of (states self.old number).book stream booking).0 }
        ensures next { Changed meanings number (Hold stream booking) (stands self.old) (stands self.new) (states self.old) (states self.new) }
        ensures spendable { IfOk result (λ note. held_by (states self.new number).book note ≡ true) };

    fn confirm(&mut self, number: u8, note: Note) -> Result<(), (BookFault, Note)>
        ensures answer { result ≡ (confirm_of (states self.old number).book note).0 }
        ensures next { Changed meanings number (Confirm note) (stands self.old) (stands self.new) (states self.old) (states self.new) };

    fn drop_hold(&mut self, number: u8, note: Note) -> Result<(), (BookFault, Note)>
        ensures answer { result ≡ (drop_of (states self.old number).book note).0 }
        ensures next { Changed meanings number (DropHold note) (stands self.old) (stands self.new) (states self.old) (states self.new) };

    fn release(&mut self, number: u8, stream: u8) -> Result<u64, BookFault>
        ensures answer { result ≡ (release_of (states self.old number).book stream).0 }
        ensures next { Changed meanings number (Release stream) (stands self.old) (stands self.new) (states self.old) (states self.new) };
}

// No module.
impl Bank for () {
    ghost size = { 0 };

    ghost meanings = { λ k. nothing };

    ghost states = { λ b k. no_module };

    ghost stands = { λ b k h. Unit {0} };

    fn has(&self, _number: u8) -> bool {
        false
    }

    fn class(&self, _number: u8, _class: u8) -> Option<Class> {
        None
    }

    fn hold(&mut self, _number: u8, _stream: u8, _booking: Booking) -> Result<Note, BookFault> {
        Err(BookFault::NotThere)
    }

    fn confirm(&mut self, _number: u8, note: Note) -> Result<(), (BookFault, Note)> {
        Err((BookFault::WrongState, note))
    }

    fn drop_hold(&mut self, _number: u8, note: Note) -> Result<(), (BookFault, Note)> {
        Err((BookFault::WrongState, note))
    }

    fn release(&mut self, _number: u8, stream: u8) -> Result<u64, BookFault> {
        if stream > LAST_STREAM {
            Err(BookFault::NotThere)
        } else {
            Err(BookFault::WrongState)
        }
    }
}

// A module ahead of a bank: number 0 is the module's, and a later one is the bank's, with one less. Each call has both ways:
// one function for all would take the call as a closure over modules of two types, which no closure is.
impl<M: Module, B: Bank> Bank for (M, B) {
    ghost size = { suc B.Bank.size };

    ghost meanings = { ahead M.Module.meaning B.Bank.meanings };

    ghost states = { λ b. state_ahead M.Module.meaning B.Bank.meanings (M.Module.state b.0) (B.Bank.states b.1) };

    ghost stands = { λ b. stand_ahead M.Module.meaning B.Bank.meanings (M.Module.stands b.0) (B.Bank.stands b.1) };

    fn has(&self, number: u8) -> bool {
        if number == 0 {
            true
        } else {
            self.1.has(number - 1)
        }
    }

    fn class(&self, number: u8, class: u8) -> Option<Class> {
        if number == 0 {
            self.0.class(class)
        } else {
            self.1.class(number - 1, class)
        }
    }

    fn hold(&mut self, number: u8, stream: u8, booking: Booking) -> Result<Note, BookFault> {
        if number == 0 {
            self.0.hold(stream, booking)
        } else {
            self.1.hold(number - 1, stream, booking)
        }
    }

    fn confirm(&mut self, number: u8, note: Note) -> Result<(), (BookFault, Note)> {
        if number == 0 {
            self.0.confirm(note)
        } else {
            self.1.confirm(number - 1, note)
        }
    }

    fn drop_hold(&mut self, number: u8, note: Note) -> Result<(), (BookFault, Note)> {
        if number == 0 {
            self.0.drop_hold(note)
        } else {
            self.1.drop_hold(number - 1, note)
        }
    }

    fn release(&mut self, number: u8, stream: u8) -> Result<u64, BookFault> {
        if number == 0 {
            self.0.release(stream)
        } else {
            self.1.release(number - 1, stream)
        }
    }
}
