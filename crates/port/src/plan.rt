// What a port is set to, checked once together with its rack, and then carried in a type.
ghost use Rattle.std.specs.Prelude.{◌≡◌};
ghost use Rattle.book.specs.Told.{told_by};
ghost use Rattle.port.specs.Planned.{has_room, Planned};

use book::setup::{Settings, Setup};
use placers::placer::Placer;
use racks::rack::Rack;
use schedule::faults::PortFault;
use schedule::rooms;
use schedule::rooms::Room;

// Settings that passed the check, beside a rack with the room for them.
#[derive(Clone, Copy)]
pub struct Plan {
    pub(crate) settings: Settings,
}

// The rack has the bins and the places, and holds no load.
fn has_room<R: Rack>(rack: &R, room: Room) -> bool
    ensures { result ≡ has_room R.Rack room rack.now }
{
    rack.bin_count() >= room.bins
        && rack.depth() >= room.depth
        && rack.total() >= room.total
        && rack.is_empty()
}

// A plan for a port over that rack and that placer, or the first rule of set that is broken.
pub fn check<R: Rack, P: Placer>(setup: &Setup, rack: &R, _placer: &P) -> Result<Plan, PortFault>
    ensures { Planned R.Rack (told_by setup.now) rack.now result }
{
    let settings = Settings::check(setup)?;
    if !has_room(rack, rooms::room_needed::<R::Item, P>(&settings)) {
        return Err(PortFault::BadRack);
    }
    Ok(Plan { settings })
}
