ghost use Rattle.std.specs.Prelude.{◌≡◌, ◌*◌, ◌≤◌};
ghost use Rattle.book.specs.Sets.{numbers_of};
ghost use Rattle.schedule.specs.Laws.{room_for, room_of, LawsOf};
ghost use Rattle.schedule.specs.Streams.{Apart};

use book::frames::SHORTEST_ON_WIRE;
use book::setup::{Class, Settings};
use loads::Load;
use placers::placer::Placer;

// The rack that a module needs: its bins, the most loads in one of them, and the most in all. A rack's own numbers are not
// known here: the rules rest on no rack.
#[derive(Clone, Copy, PartialEq, Eq, Debug, Default)]
pub struct Room {
    pub bins: u32,
    pub depth: u32,
    pub total: u32,
}

// The room that the bins of a class need: in each as many loads as a cycle can carry.
fn room_for(class: Class) -> Room
    requires { (class.bins ≤ 8) × (class.cycle ≤ 1048576) }
    ensures room { result ≡ room_for class }
    ensures bins { result.bins ≤ 8 }
    ensures total { result.total ≤ 8 * 12483 }
{
    let bins = u32::from(class.bins);
    let depth = class.cycle / SHORTEST_ON_WIRE;
    Room {
        bins,
        depth,
        total: bins * depth,
    }
}

// The room that the settings need: the slowest class, which is the last, has the deepest bins.
fn room_of(settings: &Settings) -> Room
    ensures { result ≡ room_of (numbers_of settings.now) }
{
    let mut room = Room::default();
    for class in settings.classes() {
        let own = room_for(*class);
        room.bins += own.bins;
        room.depth = own.depth;
        room.total += own.total;
    }
    room
}

// The rack that a module with these settings needs. Whatever the load and the placer, and whatever the module is asked:
// what was given a cycle leaves in that cycle, whole and in order, such a rack never overflows, and what a stream is
// answered and given does not depend on the other streams.
pub fn room_needed<L: Load, P: Placer>(settings: &Settings) -> Room
    ensures room { result ≡ room_of (numbers_of settings.now) }
    ensures laws { LawsOf (record { stream_of = L.Load.stream_of; length_of = L.Load.length_of }) P.Placer.rules (numbers_of settings.now) }
    ensures apart { Apart (record { stream_of = L.Load.stream_of; length_of = L.Load.length_of }) P.Placer.rules (numbers_of settings.now) }
{
    room_of(settings)
}
