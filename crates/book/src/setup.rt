// What set is told of a port, checked once and then carried in a type.
ghost use Rattle.std.specs.Prelude.{◌≡◌, false, is_some};
ghost use Rattle.book.specs.Few.{items_of};
ghost use Rattle.book.specs.Told.{told, set_fault};

use few::Few;

mod check;
mod few;
mod reading;

const MOST_CLASSES: usize = 4;

const MOST_INPUTS: usize = 8;

// A traffic class: its cycle time in ticks and its number of bins.
#[derive(Clone, Copy, PartialEq, Eq, Debug, Default)]
pub struct Class {
    pub cycle: u32,
    pub bins: u8,
}

// What set is told of a port: the book's number, the longest hand-over delay, the dead time before each cycle's end,
// the classes from the fastest on, and the phase of each input.
#[derive(Clone, Copy)]
pub struct Setup<'a> {
    pub number: u64,
    pub delay: u32,
    pub dead_time: u32,
    pub classes: &'a [Class],
    pub phases: &'a [u32],
}

// Settings that passed the check.
#[derive(Clone, Copy)]
pub struct Settings {
    number: u64,
    delay: u32,
    dead_time: u32,
    classes: Few<Class, MOST_CLASSES>,
    phases: Few<u32, MOST_INPUTS>,
    ghost passed: { is_some (set_fault (told number delay dead_time (items_of classes) (items_of phases))) ≡ false },
}
