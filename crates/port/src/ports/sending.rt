ghost use Rattle.std.specs.Prelude.{◌≡◌, length};
ghost use Rattle.book.specs.Books.{state_of};
ghost use Rattle.racks.specs.Bins.{bin_of};
ghost use Rattle.schedule.specs.Modules.{bad_until, short_list};
ghost use Rattle.schedule.specs.Histories.{Filler, Run, filled};
ghost use Rattle.port.specs.Standing.{loads_by, meant, of_port, ByRules, ran_of, LeftAlone, ran_book};
ghost use Rattle.port.specs.Turns.{is_busy};

use crate::ports::Port;
use crate::wires::{Moment, Wire};
use crate::{numbers, wires};
use book::frames;
use book::ticks::LAST_TICK;
use placers::placer::Placer;
use racks::rack::Rack;
use schedule::departures::Departure;
use schedule::faults::PortFault;

impl<R: Rack, P: Placer> Port<R, P> {
    // The wire is taken, or a current bin holds a load.
    fn is_busy(&self) -> bool
        ensures { result ≡ is_busy (loads_by R.Item.Load) (state_of self.now.book).settings (state_of self.now.book).clock (bin_of (R.Rack.bins self.now.rack)) self.now.wire }
    {
        let now = Moment {
            settings: self.book.settings(),
            tick: self.book.clock(),
        };
        now.tick < self.wire || now.first_waiting(&self.rack).is_some()
    }

    // Occupies the wire from the clock on, for a frame of that length that carries nothing.
    pub fn filler(&mut self, length: u16) -> Result<(), PortFault>
        ensures follows { ByRules (meant R.Rack R.Item.Load P.Placer) (Filler length) self.old self.new (filled result) }
        ensures book { state_of self.new.book ≡ state_of self.old.book }
    {
        if !numbers::is_length(length, frames::LONGEST) {
            return Err(PortFault::BadLength);
        }
        if self.is_busy() {
            return Err(PortFault::WireTaken);
        }
        self.wire = self.book.clock() + u64::from(frames::wire_octets(length));
        Ok(())
    }

    // The clock would go back, or past its last tick.
    fn is_out_of_time(&self, until: u64) -> bool
        ensures { result ≡ of_port bad_until (meant R.Rack R.Item.Load P.Placer) self.now until }
    {
        until < self.book.clock() || until > LAST_TICK
    }

    // A list of so many places is shorter than the most departures that can come: one each 84 ticks.
    fn is_short(&self, until: u64, places: usize) -> bool
        ensures { result ≡ of_port short_list (meant R.Rack R.Item.Load P.Placer) self.now until places }
    {
        (places as u64)
            < until.saturating_sub(self.book.clock()) / u64::from(frames::SHORTEST_ON_WIRE) + 1
    }

    // Sends up to a tick, without it: the departures are written to the front of the list, in order, and their number answered.
    pub fn run(&mut self, until: u64, list: &mut [Departure<R::Item>]) -> Result<usize, PortFault>
        ensures follows { ByRules (meant R.Rack R.Item.Load P.Placer) (Run until (length list.old)) self.old self.new (ran_of result list.new) }
        ensures book { state_of self.new.book ≡ ran_book result until (state_of self.old.book) }
        ensures alone { LeftAlone result list.old list.new }
    {
        if self.is_out_of_time(until) {
            return Err(PortFault::BadUntil);
        }
        if self.is_short(until, list.len()) {
            return Err(PortFault::ShortList);
        }
        let from = Wire {
            clock: self.book.clock(),
            free: self.wire,
        };
        let sent = wires::play(&mut self.rack, self.book.settings(), from, until, list);
        self.wire = sent.free;
        // The clock takes every tick that passed the checks.
        let _ = self.book.advance(until);
        Ok(sent.count)
    }
}
