// The lengths of frames, in octets.
ghost use Rattle.std.specs.Prelude.{◌≡◌, ◌+◌};

// The shortest frame and the longest.
pub const SHORTEST: u16 = 64;

pub const LONGEST: u16 = 1_522;
// What a frame has more on the wire: preamble, start of frame and gap.
pub const MORE_ON_WIRE: u32 = 20;
// The shortest and the longest on the wire.
pub const SHORTEST_ON_WIRE: u32 = 84;

pub const LONGEST_ON_WIRE: u32 = 1_542;

// The octets that a frame of that length has on the wire.
pub fn wire_octets(length: u16) -> u32
    ensures { result ≡ length + 20 }
{
    u32::from(length) + MORE_ON_WIRE
}
