// The wire of a port: which load goes next, and a run from event to event.
ghost use Rattle.std.specs.Prelude.{◌≡◌, ◌+◌, ◌-◌, ◌/◌, ◌<◌, ◌≤◌, length, take, drop};
ghost use Rattle.racks.specs.Bins.{bin_of};
ghost use Rattle.book.specs.Told.{class_count};
ghost use Rattle.book.specs.Sets.{numbers_of};
ghost use Rattle.port.specs.Standing.{loads_by};
ghost use Rattle.port.specs.Turns.{turn_of, Waits};
ghost use Rattle.port.specs.Playing.{SameRoom, Taken, Departs, Idle, Long, Played};

use crate::numbers::ClassAt;
use book::frames;
use book::setup::Settings;
use loads::Load;
use racks::rack::Rack;
use schedule::departures::Departure;

// The class with the shortest cycle.
const FASTEST: u8 = 0;

// A class, its current cycle and the bin of that cycle.
#[derive(Clone, Copy, PartialEq, Eq, Debug)]
pub(crate) struct Turn {
    pub(crate) class: u8,
    pub(crate) cycle: u64,
    pub(crate) bin: u32,
}

// A tick under a port's settings, which say what is current then.
#[derive(Clone, Copy)]
pub(crate) struct Moment<'a> {
    pub(crate) settings: &'a Settings,
    pub(crate) tick: u64,
}

// The clock of a wire, and the tick from which on it is free.
#[derive(Clone, Copy, PartialEq, Eq, Debug)]
pub(crate) struct Wire {
    pub(crate) clock: u64,
    pub(crate) free: u64,
}

// What a run leaves: the tick from which on the wire is free, and how many departures were written.
#[derive(Clone, Copy, PartialEq, Eq, Debug)]
pub(crate) struct Sent {
    pub(crate) free: u64,
    pub(crate) count: usize,
}

// How many loads a bin holds; none if it is not there.
fn loads_in<R: Rack>(rack: &R, bin: u32) -> u32
    ensures { result ≡ length (bin_of (R.Rack.bins rack.now) bin) }
{
    rack.count(bin).unwrap_or(0)
}

// Takes the oldest load out of a bin; none if the bin is not there.
fn take_from<R: Rack>(rack: &mut R, bin: u32) -> Option<R::Item>
    ensures taken { Taken (R.Rack.bins rack.old) bin result (R.Rack.bins rack.new) }
    ensures room { SameRoom R.Rack rack.old rack.new }
{
    rack.take(bin).ok().flatten()
}

impl Moment<'_> {
    // The turn of a class that is there.
    fn turn(&self, class: u8) -> Turn
        ensures { class < class_count (numbers_of self.now.settings.now) → result ≡ turn_of (numbers_of self.now.settings.now) self.now.tick class }
    {
        let at = ClassAt {
            settings: self.settings,
            number: class,
        };
        let cycle = at.class().cycle_at(self.tick);
        let bin = at.bin_of(cycle);
        Turn { class, cycle, bin }
    }

    // The turn of the lowest class whose current bin holds a load.
    pub(crate) fn first_waiting<R: Rack>(&self, rack: &R) -> Option<Turn>
        ensures { Waits (loads_by R.Item.Load) (numbers_of self.now.settings.now) self.now.tick (bin_of (R.Rack.bins rack.now)) result }
    {
        // A loop keeps that no class before holds a load; what a chain finds did not close in as few lines.
        for class in 0..self.settings.class_count() {
            let turn = self.turn(class);
            if loads_in(rack, turn.bin) > 0 {
                return Some(turn);
            }
        }
        None
    }

    // Takes out the load that leaves, where the wire is free, if there is one.
    fn depart<R: Rack>(&self, rack: &mut R) -> Option<Departure<R::Item>>
        ensures departs { Departs (loads_by R.Item.Load) (numbers_of self.now.settings.now) self.now.tick (R.Rack.bins rack.old) result (R.Rack.bins rack.new) }
        ensures room { SameRoom R.Rack rack.old rack.new }
    {
        let turn = self.first_waiting(rack)?;
        let load = take_from(rack, turn.bin)?;
        Some(Departure {
            stream: load.stream(),
            class: turn.class,
            cycle: turn.cycle,
            start: self.tick,
            load,
        })
    }

    // Up to which tick nothing leaves, where nothing leaves at this one: to the end, if no bin holds a load; else to the next
    // start of a cycle of the fastest class, since no other cycle starts before.
    fn quiet_until<R: Rack>(&self, rack: &R, until: u64) -> u64
        requires { (self.now.tick < until) × (until ≤ 1099511627775) }
        ensures { Idle (loads_by R.Item.Load) (numbers_of self.now.settings.now) self.now.tick until (R.Rack.bins rack.now) result }
    {
        if rack.is_empty() {
            return until;
        }
        let fastest = ClassAt {
            settings: self.settings,
            number: FASTEST,
        };
        let cycle = u64::from(fastest.class().cycle);
        let end = (self.tick / cycle + 1) * cycle;
        end.min(until)
    }
}

// The wire after a departure: it is taken for the octets of the frame.
fn wire_after<L: Load>(departure: &Departure<L>) -> u64
    requires { departure.now.start ≤ 1099511627775 }
    ensures { result ≡ departure.now.start + (L.Load.length_of departure.now.load + 20) }
{
    departure.start + u64::from(frames::wire_octets(departure.load.length()))
}

// Plays the ticks from a clock up to until, from event to event: the end of a frame on the wire, a departure, the start of a
// cycle. Each departure takes the wire for at least 84 ticks, so that the list, where it is long enough for the time, has room.
// The places are counted by hand, since a load is only taken out for a place that is there, and the count is what a run answers.
pub(crate) fn play<R: Rack>(
    rack: &mut R,
    settings: &Settings,
    from: Wire,
    until: u64,
    list: &mut [Departure<R::Item>],
) -> Sent
    requires { (from.clock ≤ until) × (until ≤ 1099511627775) }
    ensures played { Long (loads_by R.Item.Load) (bin_of (R.Rack.bins rack.old)) → (until - from.clock) / 84 < length list.old → Played (loads_by R.Item.Load) (numbers_of settings.now) until from.clock from.free (R.Rack.bins rack.old) result.free (R.Rack.bins rack.new) (take result.count list.new) }
    ensures written { result.count ≤ length list.new }
    ensures later { drop result.count list.new ≡ drop result.count list.old }
    ensures room { SameRoom R.Rack rack.old rack.new }
{
    let mut wire = from;
    let mut count: usize = 0;
    while wire.clock < until && count < list.len() {
        if wire.clock < wire.free {
            wire.clock = wire.free.min(until);
        } else {
            let now = Moment {
                settings,
                tick: wire.clock,
            };
            match now.depart(rack) {
                None => {
                    wire.clock = now.quiet_until(rack, until);
                }
                Some(departure) => {
                    wire.free = wire_after(&departure);
                    list[count] = departure;
                    count += 1;
                }
            }
        }
    }
    Sent {
        free: wire.free,
        count,
    }
}
