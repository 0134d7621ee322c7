// A bin's ring among its places: where it starts, and how many of them it uses.
ghost use Rattle.std.specs.Prelude.{◌≡◌, ◌+◌, ◌-◌, ◌%◌, ◌<◌, ◌≤◌};

#[derive(Clone, Copy)]
pub(crate) struct Ring {
    pub(crate) start: u32,
    pub(crate) count: u32,
}

// The remainder of a number that is below twice the depth: no division.
fn wrapped(at: u32, depth: u32) -> u32
    requires { at < depth + depth }
    ensures value { result ≡ at % depth }
    ensures below { result < depth }
{
    if at < depth { at } else { at - depth }
}

impl Ring {
    // The first place that is not used, past those that are.
    pub(crate) fn end(&self, depth: u32) -> u32
        requires { (self.now.start < depth) × ((self.now.count < depth) × (depth ≤ 1048576)) }
        ensures value { result ≡ (self.now.start + self.now.count) % depth }
        ensures below { result < depth }
    {
        wrapped(self.start + self.count, depth)
    }

    // One more place is used, at the end.
    pub(crate) fn grow(&mut self)
        requires { self.old.count < 1048576 }
        ensures start { self.new.start ≡ self.old.start }
        ensures count { self.new.count ≡ self.old.count + 1 }
    {
        self.count += 1;
    }

    // The oldest place is free: the ring starts at the one after it.
    pub(crate) fn shrink(&mut self, depth: u32)
        requires { (self.old.start < depth) × ((0 < self.old.count) × (depth ≤ 1048576)) }
        ensures start { self.new.start ≡ (self.old.start + 1) % depth }
        ensures below { self.new.start < depth }
        ensures count { self.new.count ≡ self.old.count - 1 }
    {
        self.start = wrapped(self.start + 1, depth);
        self.count -= 1;
    }
}
