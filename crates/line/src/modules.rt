ghost use Rattle.std.specs.Prelude.{◌≡◌, true, IfOk};
ghost use Rattle.book.specs.Sets.{class_at};
ghost use Rattle.book.specs.Books.{held_by, hold_of, confirm_of, drop_of, release_of};
ghost use Rattle.schedule.specs.Modules.{State};
ghost use Rattle.schedule.specs.Histories.{Hold, Confirm, DropHold, Release};
ghost use Rattle.port.specs.Standing.{loads_by, meant, module_of, parts_of, Stands};
ghost use Rattle.line.specs.Banks.{Meaning, History, Takes};

use book::faults::BookFault;
use book::ledger::Note;
use book::rows::Booking;
use book::setup::Class;
use placers::placer::Placer;
use port::ports::Port;
use racks::rack::Rack;

// What has a book, and the rest of a module around it. Each call's answer is the book's. A module that stands after a history,
// as each does that was made and then called, is at the return in the state that the rules give, and stands after one call more.
// The calls are those of what has a book; they stand here once more because the clauses on a book's calls know of no history.
pub trait Module {
    ghost meaning: { Meaning };

    ghost state: { Self → State meaning.Load meaning.Record };

    ghost stands: { Self → History meaning → Type 0 };

    // A class by its number, if it is there.
    fn class(&self, class: u8) -> Option<Class>
        ensures { result ≡ class_at (state self.now).book.settings class };

    fn hold(&mut self, stream: u8, booking: Booking) -> Result<Note, BookFault>
        ensures answer { result ≡ (hold_of (state self.old).book stream booking).0 }
        ensures next { Takes meaning (Hold stream booking) (stands self.old) (stands self.new) (state self.old) (state self.new) }
        ensures spendable { IfOk result (λ note. held_by (state self.new).book note ≡ true) };

    fn confirm(&mut self, note: Note) -> Result<(), (BookFault, Note)>
        ensures answer { result ≡ (confirm_of (state self.old).book note).0 }
        ensures next { Takes meaning (Confirm note) (stands self.old) (stands self.new) (state self.old) (state self.new) };

    fn drop_hold(&mut self, note: Note) -> Result<(), (BookFault, Note)>
        ensures answer { result ≡ (drop_of (state self.old).book note).0 }
        ensures next { Takes meaning (DropHold note) (stands self.old) (stands self.new) (state self.old) (state self.new) };

    fn release(&mut self, stream: u8) -> Result<u64, BookFault>
        ensures answer { result ≡ (release_of (state self.old).book stream).0 }
        ensures next { Takes meaning (Release stream) (stands self.old) (stands self.new) (state self.old) (state self.new) };
}

// A port, over any rack and with any placer.
impl<R: Rack, P: Placer> Module for Port<R, P> {
    ghost meaning = { record {
      Load = R.Item;
      Record = P.Placer.Record;
      loads = loads_by R.Item.Load;
      rules = P.Placer.rules;
      duties = P.Placer.duties;
    } };

    ghost state = { module_of (meant R.Rack R.Item.Load P.Placer) };

    ghost stands = { λ p h. Stands (loads_by R.Item.Load) P.Placer.rules h.told h.begun h.calls (parts_of (meant R.Rack R.Item.Load P.Placer) p) };

    fn class(&self, class: u8) -> Option<Class> {
        self.class(class)
    }

    fn hold(&mut self, stream: u8, booking: Booking) -> Result<Note, BookFault> {
        self.hold(stream, booking)
    }

    fn confirm(&mut self, note: Note) -> Result<(), (BookFault, Note)> {
        self.confirm(note)
    }

    fn drop_hold(&mut self, note: Note) -> Result<(), (BookFault, Note)> {
        self.drop_hold(note)
    }

    fn release(&mut self, stream: u8) -> Result<u64, BookFault> {
        self.release(stream)
    }
}
