// A load as it went onto the wire: its stream, its class and cycle, and the tick at which its first octet was sent.
#[derive(Clone, Copy)]
pub struct Departure<L> {
    pub stream: u8,
    pub class: u8,
    pub cycle: u64,
    pub start: u64,
    pub load: L,
}
