// The book of a port: its settings, its clock and the rows of its streams.
ghost use Rattle.std.specs.Prelude.{◌≡◌, ◌≤◌, false, is_some};
ghost use Rattle.book.specs.Sums.{over_fault};
ghost use Rattle.book.specs.Sets.{numbers_of};

use crate::rows::{Row, STREAMS};
use crate::setup::Settings;

pub mod booked;
mod calls;
mod reading;
mod sums;

// What hold gives: the right to confirm or drop that stream's hold in the book of that number, once.
// It cannot be copied or let go; only confirm and drop_hold take it.
pub struct Note {
    number: u64,
    stream: u8,
}

// What it means is told by name, as `state_of` it: the laws over sequences of calls speak of such states with no book.
#[derive(Drop)]
pub struct Book {
    settings: Settings,
    clock: u64,
    rows: [Row; STREAMS],
    ghost timely: { clock ≤ 1099511627775 },
    ghost within: { is_some (over_fault (numbers_of settings) rows) ≡ false },
}
