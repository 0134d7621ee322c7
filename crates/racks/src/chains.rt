// A chain of places, each of which names its next one: its first and last place and how many it has.
ghost use Rattle.std.specs.Prelude.{◌≡◌, ◌+◌, ◌-◌, ◌<◌};

#[derive(Clone, Copy)]
pub(crate) struct Chain {
    pub(crate) first: u32,
    pub(crate) last: u32,
    pub(crate) count: u32,
}

impl Chain {
    // The first place leaves; the one after it is the first then.
    pub(crate) fn leave(&mut self, after: u32)
        requires { 0 < self.old.count }
        ensures first { self.new.first ≡ after }
        ensures last { self.new.last ≡ self.old.last }
        ensures count { self.new.count ≡ self.old.count - 1 }
    {
        self.first = after;
        self.count -= 1;
    }

    // A place joins at the end.
    pub(crate) fn join(&mut self, place: u32)
        requires { self.old.count < 1048576 }
        ensures first { self.new.first ≡ self.old.first }
        ensures last { self.new.last ≡ place }
        ensures count { self.new.count ≡ self.old.count + 1 }
    {
        self.last = place;
        self.count += 1;
    }

    // The place that joins an empty chain is its first as well.
    pub(crate) fn start(&mut self, place: u32)
        requires { self.old.count < 1048576 }
        ensures first { self.new.first ≡ place }
        ensures last { self.new.last ≡ place }
        ensures count { self.new.count ≡ self.old.count + 1 }
    {
        self.first = place;
        self.join(place);
    }
}
