ghost use Rattle.std.specs.Prelude.{◌≡◌, true, IfOk};
ghost use Rattle.book.specs.Books.{state_of, held_by, hold_of, confirm_of, drop_of, release_of};
ghost use Rattle.schedule.specs.Histories.{Hold, Confirm, DropHold, Release, held, spent, released};
ghost use Rattle.port.specs.Standing.{meant, ByRules};

use crate::numbers::ClassAt;
use crate::ports::Port;
use book::faults::BookFault;
use book::ledger::Note;
use book::rows::Booking;
use placers::placer::Placer;
use racks::rack::Rack;

impl<R: Rack, P: Placer> Port<R, P> {
    // Books a free row for a stream, if every class's sum stays within its cycle.
    pub fn hold(&mut self, stream: u8, booking: Booking) -> Result<Note, BookFault>
        ensures answer { result ≡ (hold_of (state_of self.old.book) stream booking).0 }
        ensures next { state_of self.new.book ≡ (hold_of (state_of self.old.book) stream booking).1 }
        ensures spendable { IfOk result (λ note. held_by (state_of self.new.book) note ≡ true) }
        ensures follows { ByRules (meant R.Rack R.Item.Load P.Placer) (Hold stream booking) self.old self.new (held result) }
    {
        self.book.hold(stream, booking)
    }

    // Spends the note of a hold and makes its row live. Its placer's record is new then, and no stamp of it is known.
    // A refused note is handed back.
    pub fn confirm(&mut self, note: Note) -> Result<(), (BookFault, Note)>
        ensures answer { result ≡ (confirm_of (state_of self.old.book) note).0 }
        ensures next { state_of self.new.book ≡ (confirm_of (state_of self.old.book) note).1 }
        ensures follows { ByRules (meant R.Rack R.Item.Load P.Placer) (Confirm note) self.old self.new (spent result) }
    {
        let stream = note.stream();
        let Some(booking) = self.held(stream) else {
            return self.book.confirm(note);
        };
        let class = ClassAt {
            settings: self.book.settings(),
            number: booking.class,
        };
        let terms = class.terms(booking.input);
        self.book.confirm(note)?;
        self.placer.renew(stream, terms);
        self.stamps.write(stream, 0);
        Ok(())
    }

    // Spends the note of a hold and frees its row. A refused note is handed back.
    pub fn drop_hold(&mut self, note: Note) -> Result<(), (BookFault, Note)>
        ensures answer { result ≡ (drop_of (state_of self.old.book) note).0 }
        ensures next { state_of self.new.book ≡ (drop_of (state_of self.old.book) note).1 }
        ensures follows { ByRules (meant R.Rack R.Item.Load P.Placer) (DropHold note) self.old self.new (spent result) }
    {
        self.book.drop_hold(note)
    }

    // Makes a live row leaving, and answers the cycle of its class from whose start on it is free.
    pub fn release(&mut self, stream: u8) -> Result<u64, BookFault>
        ensures answer { result ≡ (release_of (state_of self.old.book) stream).0 }
        ensures next { state_of self.new.book ≡ (release_of (state_of self.old.book) stream).1 }
        ensures follows { ByRules (meant R.Rack R.Item.Load P.Placer) (Release stream) self.old self.new (released result) }
    {
        self.book.release(stream)
    }
}
