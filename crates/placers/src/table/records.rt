ghost use Rattle.std.specs.Prelude.{◌≡◌, ◌^◌, ◌<◌};
ghost use Rattle.placers.specs.Latest.{held_in, has_room, added};
ghost use Rattle.placers.specs.Counted.{first_after, earliest};

use crate::faults::PlacerFault;
use crate::table::Latest;
use crate::terms::Ask;

impl Latest {
    // The octets of the stream in a cycle that is not before its last.
    fn held_in(&self, cycle: u64) -> u32
        ensures { result ≡ held_in self.now cycle }
    {
        if self.cycle == cycle { self.octets } else { 0 }
    }

    // The octets of the frame are within the quota too.
    fn has_room(&self, cycle: u64, ask: Ask) -> bool
        ensures { result ≡ has_room self.now cycle ask.octets ask.quota }
    {
        ask.octets <= ask.quota && self.held_in(cycle) <= ask.quota - ask.octets
    }

    // The record after a frame into a cycle, if the quota allows.
    pub(crate) fn add(&self, cycle: u64, ask: Ask) -> Result<Latest, PlacerFault>
        ensures { result ≡ added self.now cycle ask.octets ask.quota }
    {
        if !self.has_room(cycle, ask) {
            return Err(PlacerFault::NoRoom);
        }
        Ok(Latest {
            cycle,
            octets: self.held_in(cycle) + ask.octets,
        })
    }

    // The first cycle after the current one that is not before the stream's last.
    pub(crate) fn first_after(&self, current: u64) -> u64
        requires { current < 2 ^ 63 }
        ensures { result ≡ first_after self.now current }
    {
        self.cycle.max(current + 1)
    }

    // That cycle if it has room, else the one after it.
    pub(crate) fn earliest(&self, first: u64, ask: Ask) -> u64
        requires { first < 2 ^ 63 }
        ensures { result ≡ earliest self.now first ask.octets ask.quota }
    {
        if self.has_room(first, ask) {
            first
        } else {
            first + 1
        }
    }
}
