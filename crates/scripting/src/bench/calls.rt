ghost use Rattle.std.specs.Prelude.{◌≡◌, ◌≤◌, IfOk, vec_items, vec_capacity};
ghost use Rattle.std.specs.Option.{option_map};
ghost use Rattle.book.specs.Told.{told_by};
ghost use Rattle.book.specs.Books.{state_of};
ghost use Rattle.scripting.specs.Notes.{in_hand};
ghost use Rattle.scripting.specs.Benches.{bench_of, empty_bench, with_book, used_up, told_in, noted, class_noted, input_noted, set_of, shown, carried_out};

use crate::answers::{Done, Refusal};
use crate::bench::Bench;
use crate::desk::Desk;
use crate::notes::Blank;
use crate::script::Command;
use book::ledger::Book;
use book::rows::STREAMS;
use book::setup::{Class, Settings, Setup};
use book::ticks;
use std::alloc::{AllocError, Global};

// One more than a set accepts.
const MOST_CLASSES: usize = 5;

const MOST_INPUTS: usize = 9;
// The number of the one module's book.
const NUMBER: u64 = 0;

// One more is noted, unless so many are.
fn note<T: Copy>(list: &mut Vec<T>, most: usize, item: T)
    requires { most ≤ vec_capacity list.old }
    ensures items { vec_items list.new ≡ noted most (vec_items list.old) item }
    ensures room { vec_capacity list.new ≡ vec_capacity list.old }
{
    if list.len() < most {
        list.push_reserved(item);
    }
}

impl Bench {
    // An empty bench: no book is set, and nothing is named.
    pub fn new(heap: Global) -> Result<Bench, AllocError>
        ensures { IfOk result (λ b. bench_of b ≡ empty_bench) }
    {
        let classes = Vec::with_capacity(heap, MOST_CLASSES)?;
        let inputs = Vec::with_capacity(heap, MOST_INPUTS)?;
        let notes = Blank::new(heap)?.notes();
        let desk = Desk {
            module: None,
            notes,
        };
        Ok(Bench {
            desk,
            classes,
            inputs,
        })
    }

    // Drops what is in hand, by rising stream, and answers whose notes those were.
    pub fn close(self) -> [bool; STREAMS]
        ensures { result ≡ in_hand (bench_of self).book }
    {
        let Bench {
            desk,
            classes: _,
            inputs: _,
        } = self;
        desk.close()
    }

    // The book that is set.
    pub fn book(&self) -> Option<&Book>
        ensures { option_map (λ b. state_of b.now) result ≡ (bench_of self.now).book }
    {
        self.desk.module.as_ref()
    }

    // What is told to the next set.
    pub fn setup(&self, delay: u32, dead_time: u32) -> Setup<'_>
        ensures { told_by result ≡ told_in (bench_of self.now) delay dead_time }
    {
        Setup {
            number: NUMBER,
            delay,
            dead_time,
            classes: self.classes.as_slice(),
            phases: self.inputs.as_slice(),
        }
    }

    // Uses up what was named.
    pub fn use_up(&mut self)
        ensures { bench_of self.new ≡ used_up (bench_of self.old) }
    {
        self.classes.clear();
        self.inputs.clear();
    }

    // Gives the book up: drops what is in hand, by rising stream, and answers whose notes those were.
    pub fn give_up(&mut self) -> [bool; STREAMS]
        ensures dropped { result ≡ in_hand (bench_of self.old).book }
        ensures next { bench_of self.new ≡ with_book (bench_of self.old) None }
    {
        self.desk.clear()
    }

    fn add_class(&mut self, class: Class) -> Done
        ensures answer { Ok result ≡ (class_noted (bench_of self.old) class).0 }
        ensures next { bench_of self.new ≡ (class_noted (bench_of self.old) class).1 }
    {
        note(&mut self.classes, MOST_CLASSES, class);
        Done::Noted
    }

    fn add_input(&mut self, phase: u32) -> Done
        ensures answer { Ok result ≡ (input_noted (bench_of self.old) phase).0 }
        ensures next { bench_of self.new ≡ (input_noted (bench_of self.old) phase).1 }
    {
        note(&mut self.inputs, MOST_INPUTS, phase);
        Done::Noted
    }

    fn set(&mut self, delay: u32, dead_time: u32) -> Result<Done, Refusal>
        ensures answer { result ≡ (set_of (bench_of self.old) delay dead_time).0 }
        ensures next { bench_of self.new ≡ (set_of (bench_of self.old) delay dead_time).1 }
    {
        let checked = Settings::check(&self.setup(delay, dead_time));
        self.use_up();
        let dropped = self.desk.set(checked?);
        Ok(Done::Set { dropped })
    }

    fn show(&self) -> Result<Done, Refusal>
        ensures { result ≡ shown (bench_of self.now).book }
    {
        if self.desk.module.is_some() {
            Ok(Done::Shown)
        } else {
            Err(Refusal::NothingSet)
        }
    }

    // Carries a command out.
    pub fn carry_out(&mut self, command: Command) -> Result<Done, Refusal>
        ensures answer { result ≡ (carried_out (bench_of self.old) command).0 }
        ensures next { bench_of self.new ≡ (carried_out (bench_of self.old) command).1 }
    {
        match command {
            Command::Bins {
                delay,
                cycle,
                phase,
            } => Ok(Done::Bins(ticks::bins_needed(delay, cycle, phase)?)),
            Command::AddClass(class) => Ok(self.add_class(class)),
            Command::AddInput(phase) => Ok(self.add_input(phase)),
            Command::Set { delay, dead_time } => self.set(delay, dead_time),
            Command::Call(call) => self.desk.carry_out(call),
            Command::Advance(until) => self.desk.advance(until),
            Command::Show => self.show(),
        }
    }
}
