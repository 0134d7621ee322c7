ghost use Rattle.std.specs.Prelude.{◌≡◌, ℕ, ◌<◌, length, nat_lt, slice_set};
ghost use Rattle.racks.specs.Bins.{empty_bins};
ghost use Rattle.racks.specs.Places.{Within, bins_over, total_over};

use crate::faults::RackFault;
use crate::rack::Rack;
use crate::slots::Slots;
use loads::Load;

// A rack over a lent list of places: the slots say which place holds which load.
#[derive(Drop)]
pub struct Store<'a, 'b, L, S> {
    places: &'a mut [L],
    slots: &'b mut S,
}

// Writes a load into a place.
fn write<L: Drop>(places: &mut [L], place: u32, load: L)
    requires { place < length places.old }
    ensures { places.new ≡ slice_set places.old place load }
{
    places[place as usize] = load;
}

impl<'a, 'b, L: Load, S: Slots> Store<'a, 'b, L, S> {
    // Over slots that hold nothing all bins are empty.
    pub fn over(places: &'a mut [L], slots: &'b mut S) -> Store<'a, 'b, L, S>
        ensures places { result.places.now ≡ places.old }
        ensures slots { result.slots.now ≡ slots.old }
        ensures empty { (bins : ℕ) → S.Slots.lay slots.old ≡ empty_bins bins → bins_over (S.Slots.room result.slots.now) result.places.now (S.Slots.lay result.slots.now) ≡ empty_bins bins }
    {
        Store::lent(places, slots)
    }

    // The two parts as they are.
    fn lent(places: &'a mut [L], slots: &'b mut S) -> Store<'a, 'b, L, S>
        ensures places { result.places.now ≡ places.old }
        ensures slots { result.slots.now ≡ slots.old }
    {
        Store { places, slots }
    }

    // The lent list is too short for the slots: such a rack holds nothing and has no room.
    fn is_short(&self) -> bool
        ensures answer { result ≡ nat_lt (length self.now.places.now) (S.Slots.room self.now.slots.now) }
        ensures within { Within (S.Slots.room self.now.slots.now) (S.Slots.lay self.now.slots.now) }
    {
        self.places.len() < self.slots.sizes().room as usize
    }
}

impl<'a, 'b, L: Load, S: Slots> Rack for Store<'a, 'b, L, S> {
    type Item = L;

    ghost bins = { λ s. bins_over (S.Slots.room s.slots.now) s.places.now (S.Slots.lay s.slots.now) };

    ghost depth = { λ s. S.Slots.depth s.slots.now };

    ghost total = { λ s. total_over (S.Slots.room s.slots.now) s.places.now (S.Slots.total s.slots.now) };

    fn put(&mut self, bin: u32, load: L) -> Result<(), RackFault> {
        if self.is_short() {
            self.slots.holds(bin)?;
            return Err(RackFault::Full);
        }
        let place = self.slots.give(bin)?;
        write(self.places, place, load);
        Ok(())
    }

    fn take(&mut self, bin: u32) -> Result<Option<L>, RackFault> {
        if self.is_short() {
            self.slots.holds(bin)?;
            return Ok(None);
        }
        let Some(place) = self.slots.free(bin)? else {
            return Ok(None);
        };
        Ok(Some(self.places[place as usize]))
    }

    fn count(&self, bin: u32) -> Result<u32, RackFault> {
        let held = self.slots.holds(bin)?;
        if self.is_short() {
            return Ok(0);
        }
        Ok(held)
    }

    fn bin_count(&self) -> u32 {
        self.slots.sizes().numbers.bins
    }

    fn depth(&self) -> u32 {
        self.slots.sizes().numbers.depth
    }

    fn total(&self) -> u32 {
        if self.is_short() {
            return 0;
        }
        self.slots.sizes().numbers.total
    }

    fn is_empty(&self) -> bool {
        self.is_short() || self.slots.held() == 0
    }
}
