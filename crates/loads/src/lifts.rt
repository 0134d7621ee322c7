// The load of the controller: one pick of the loom, and which hooks it lifts. The row is the frame.
ghost use Rattle.std.specs.Prelude.{◌≡◌};
ghost use Rattle.loads.specs.LiftRows.{row_of, hook_at};

use crate::Load;

// The hooks of a row; a row takes an octet for each.
pub const HOOKS: usize = 64;

const ROW_LENGTH: u16 = 64;

#[derive(Clone, Copy, PartialEq, Eq, Debug)]
pub enum Hook {
    Up,
    Down,
}

#[derive(Clone, Copy, PartialEq, Eq, Debug)]
pub struct LiftRow {
    stream: u8,
    pick: u32,
    hooks: [Hook; HOOKS],
}

impl LiftRow {
    pub fn new(stream: u8, pick: u32, hooks: [Hook; HOOKS]) -> LiftRow
        ensures { result ≡ row_of stream pick hooks }
    {
        LiftRow {
            stream,
            pick,
            hooks,
        }
    }

    // The number of the pick that the row is for.
    pub fn pick(&self) -> u32
        ensures { result ≡ self.now.pick }
    {
        self.pick
    }

    // A hook by its number, 0 to 63; none where there is no such hook.
    pub fn hook(&self, number: u8) -> Option<Hook>
        ensures { result ≡ hook_at self.now.hooks number }
    {
        self.hooks.get(number as usize).copied()
    }
}

impl Load for LiftRow {
    ghost stream_of = { λ w. w.stream };

    ghost length_of = { λ w. 64 };

    fn stream(&self) -> u8 {
        self.stream
    }

    fn length(&self) -> u16 {
        ROW_LENGTH
    }
}
