// A book and what a script has in hand for it.
ghost use Rattle.std.specs.Prelude.{◌≤◌, vec_capacity};

use crate::desk::Desk;
use book::ledger::Book;
use book::setup::Class;

mod calls;

// The desk of the book that is set, and what was named for the next set. What it means is told by name, `bench_of` it, since the
// definitions of commands speak of such states with no bench.
// Of classes and inputs one more is kept than a set accepts: with further ones it would answer the same.
pub struct Bench {
    desk: Desk<Book>,
    classes: Vec<Class>,
    inputs: Vec<u32>,
    ghost class_room: { 5 ≤ vec_capacity classes },
    ghost input_room: { 9 ≤ vec_capacity inputs },
}
