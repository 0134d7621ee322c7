// What a placer goes by: the set numbers of a stream, and a frame.
mod reading;

// The set numbers of a stream's class and input: cycle time, phase of the input in that cycle, longest hand-over delay, bins.
#[derive(Clone, Copy, PartialEq, Eq, Debug)]
pub struct Terms {
    pub cycle: u32,
    pub phase: u32,
    pub delay: u32,
    pub bins: u8,
}

// A frame that is handed over: the clock then, the stamp of its arrival, its octets on the wire,
// and the quota of its stream, the octets booked per cycle.
#[derive(Clone, Copy, PartialEq, Eq, Debug)]
pub struct Ask {
    pub clock: u64,
    pub stamp: u64,
    pub octets: u32,
    pub quota: u32,
}
