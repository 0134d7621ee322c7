// A book and what a script has in hand for it, and the rack and the placer of a port to be set.
use crate::kinds::{PlacerKind, RackChoice};
use scripting::bench::Bench as BookBench;

mod calls;

// The bench of a book alone, and what else was named for the next set.
pub struct Bench {
    alone: BookBench,
    rack: Option<RackChoice>,
    placer: Option<PlacerKind>,
}
