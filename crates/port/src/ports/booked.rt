// The calls on the port's book, for code that books on whatever has one. The trait speaks of the book alone; here each call
// says of the whole port, too, that it goes by the rules, as the port's own call does.
ghost use Rattle.std.specs.Prelude.{◌≡◌, true, IfOk};
ghost use Rattle.book.specs.Books.{state_of, held_by, hold_of, confirm_of, drop_of, release_of};
ghost use Rattle.schedule.specs.Histories.{Hold, Confirm, DropHold, Release, held, spent, released};
ghost use Rattle.port.specs.Standing.{meant, ByRules};

use crate::ports::Port;
use book::faults::BookFault;
use book::ledger::Note;
use book::ledger::booked::Booked;
use book::rows::Booking;
use placers::placer::Placer;
use racks::rack::Rack;

impl<R: Rack, P: Placer> Booked for Port<R, P> {
    ghost book = { λ p. state_of p.book };

    fn hold(&mut self, stream: u8, booking: Booking) -> Result<Note, BookFault>
        ensures answer { result ≡ (hold_of (state_of self.old.book) stream booking).0 }
        ensures next { state_of self.new.book ≡ (hold_of (state_of self.old.book) stream booking).1 }
        ensures spendable { IfOk result (λ note. held_by (state_of self.new.book) note ≡ true) }
        ensures follows { ByRules (meant R.Rack R.Item.Load P.Placer) (Hold stream booking) self.old self.new (held result) }
    {
        Port::hold(self, stream, booking)
    }

    fn confirm(&mut self, note: Note) -> Result<(), (BookFault, Note)>
        ensures answer { result ≡ (confirm_of (state_of self.old.book) note).0 }
        ensures next { state_of self.new.book ≡ (confirm_of (state_of self.old.book) note).1 }
        ensures follows { ByRules (meant R.Rack R.Item.Load P.Placer) (Confirm note) self.old self.new (spent result) }
    {
        Port::confirm(self, note)
    }

    fn drop_hold(&mut self, note: Note) -> Result<(), (BookFault, Note)>
        ensures answer { result ≡ (drop_of (state_of self.old.book) note).0 }
        ensures next { state_of self.new.book ≡ (drop_of (state_of self.old.book) note).1 }
        ensures follows { ByRules (meant R.Rack R.Item.Load P.Placer) (DropHold note) self.old self.new (spent result) }
    {
        Port::drop_hold(self, note)
    }

    fn release(&mut self, stream: u8) -> Result<u64, BookFault>
        ensures answer { result ≡ (release_of (state_of self.old.book) stream).0 }
        ensures next { state_of self.new.book ≡ (release_of (state_of self.old.book) stream).1 }
        ensures follows { ByRules (meant R.Rack R.Item.Load P.Placer) (Release stream) self.old self.new (released result) }
    {
        Port::release(self, stream)
    }
}
