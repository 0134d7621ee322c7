ghost use Rattle.std.specs.Prelude.{◌≡◌};
ghost use Rattle.book.specs.Ticks.{inside};
ghost use Rattle.book.specs.Books.{state_of};
ghost use Rattle.schedule.specs.Modules.{booked_fault, good_stamp, not_there, ask_of};
ghost use Rattle.schedule.specs.Histories.{Frame, placed};
ghost use Rattle.port.specs.Standing.{meant, of_port, ByRules};
ghost use Rattle.port.specs.Admitted.{unless, admitted};

use crate::numbers;
use crate::numbers::ClassAt;
use crate::ports::Port;
use book::frames;
use book::rows::{Booking, LAST_STREAM};
use loads::Load;
use placers::placer::Placer;
use placers::terms::Ask;
use racks::rack::Rack;
use schedule::faults::PortFault;

// A frame that is handed over: the input from which it came, the stamp of its arrival, and its load.
#[derive(Clone, Copy)]
struct Handed<L> {
    input: u8,
    stamp: u64,
    load: L,
}

impl<L: Load> Handed<L> {
    // The length is one that its booking allows.
    fn is_allowed(&self, booking: Booking) -> bool
        ensures { result ≡ inside 64 booking.longest (L.Load.length_of self.now.load) }
    {
        numbers::is_length(self.load.length(), booking.longest)
    }
}

impl<R: Rack, P: Placer> Port<R, P> {
    // The stream or the input is not there.
    fn lacks(&self, frame: &Handed<R::Item>) -> bool
        ensures { result ≡ of_port not_there (meant R.Rack R.Item.Load P.Placer) self.now frame.now.input frame.now.load }
    {
        frame.load.stream() > LAST_STREAM || frame.input >= self.book.settings().input_count()
    }

    // The stamp is not after the clock, and not longer before it than the delay.
    fn is_timely(&self, stamp: u64) -> bool
        ensures { result ≡ of_port good_stamp (meant R.Rack R.Item.Load P.Placer) self.now stamp }
    {
        let clock = self.book.clock();
        stamp <= clock && clock - stamp <= u64::from(self.book.settings().delay())
    }

    // The checks of a frame by its booking.
    fn check(&self, booking: Booking, frame: &Handed<R::Item>) -> Result<(), PortFault>
        ensures { result ≡ unless (of_port booked_fault (meant R.Rack R.Item.Load P.Placer) self.now booking frame.now.input frame.now.stamp frame.now.load) tt }
    {
        if frame.input != booking.input {
            return Err(PortFault::WrongInput);
        }
        if !frame.is_allowed(booking) {
            return Err(PortFault::BadLength);
        }
        if !self.is_timely(frame.stamp) {
            return Err(PortFault::BadStamp);
        }
        let last = self.stamps.read(frame.load.stream()).unwrap_or(0);
        if frame.stamp < last {
            return Err(PortFault::StampBack);
        }
        Ok(())
    }

    // The booking by which a frame is placed, if it passes every check before.
    fn admitted(&self, frame: &Handed<R::Item>) -> Result<Booking, PortFault>
        ensures { result ≡ of_port admitted (meant R.Rack R.Item.Load P.Placer) self.now frame.now.input frame.now.stamp frame.now.load }
    {
        if self.lacks(frame) {
            return Err(PortFault::NotThere);
        }
        let booking = self.live(frame.load.stream()).ok_or(PortFault::NotLive)?;
        self.check(booking, frame)?;
        Ok(booking)
    }

    // What the placer is asked.
    fn ask_of(&self, booking: Booking, frame: &Handed<R::Item>) -> Ask
        ensures { result ≡ of_port ask_of (meant R.Rack R.Item.Load P.Placer) self.now booking frame.now.stamp frame.now.load }
    {
        Ask {
            clock: self.book.clock(),
            stamp: frame.stamp,
            octets: frames::wire_octets(frame.load.length()),
            quota: booking.quota,
        }
    }

    // Hands a frame over: it gets a cycle, and waits in the bin of that cycle. A rack with the room of the plan takes every load,
    // so that its refusal, where the port stands after a history, never comes.
    pub fn frame(&mut self, input: u8, stamp: u64, load: R::Item) -> Result<u64, PortFault>
        ensures follows { ByRules (meant R.Rack R.Item.Load P.Placer) (Frame input stamp load) self.old self.new (placed result) }
        ensures book { state_of self.new.book ≡ state_of self.old.book }
    {
        let frame = Handed { input, stamp, load };
        let stream = load.stream();
        let booking = self.admitted(&frame)?;
        let ask = self.ask_of(booking, &frame);
        let class = ClassAt {
            settings: self.book.settings(),
            number: booking.class,
        };
        let cycle = self.placer.place(stream, class.terms(booking.input), ask)?;
        let bin = class.bin_of(cycle);
        self.rack.put(bin, load).map_err(|_| PortFault::BadRack)?;
        self.stamps.write(stream, stamp);
        Ok(cycle)
    }
}
