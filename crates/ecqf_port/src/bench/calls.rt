ghost use Rattle.std.specs.Prelude.{◌≡◌, IfOk, None};
ghost use Rattle.std.specs.Option.{option_map};
ghost use Rattle.book.specs.Books.{state_of};
ghost use Rattle.port.specs.Planned.{Planned};
ghost use Rattle.scripting.specs.Notes.{in_hand};
ghost use Rattle.ecqf_port.specs.Benches.{bench_of, empty_bench, book_in, with_book, used_up, told_in, rack_noted, placer_noted, alone_done, set_of, lacks_port, carried_out};

use crate::answers::{Done, Refusal};
use crate::bench::Bench;
use crate::kinds::{Asked, PlacerKind, RackChoice};
use crate::script::Command;
use book::ledger::Book;
use book::rows::STREAMS;
use placers::placer::Placer;
use port::plan;
use port::plan::Plan;
use racks::rack::Rack;
use schedule::faults::PortFault;
use scripting::answers::{Done as BookDone, Refusal as BookRefusal};
use scripting::bench::Bench as BookBench;
use scripting::script::Command as BookCommand;
use std::alloc::{AllocError, Global};

impl Bench {
    // An empty bench: no book is set, and nothing is named.
    pub fn new(heap: Global) -> Result<Bench, AllocError>
        ensures { IfOk result (λ b. bench_of b ≡ empty_bench) }
    {
        Ok(Bench {
            alone: BookBench::new(heap)?,
            rack: None,
            placer: None,
        })
    }

    // Drops what is in hand, by rising stream, and answers whose notes those were.
    pub fn close(self) -> [bool; STREAMS]
        ensures { result ≡ in_hand (book_in (bench_of self)) }
    {
        let Bench {
            alone,
            rack: _,
            placer: _,
        } = self;
        alone.close()
    }

    // The book that is set.
    pub(crate) fn book(&self) -> Option<&Book>
        ensures { option_map (λ b. state_of b.now) result ≡ book_in (bench_of self.now) }
    {
        self.alone.book()
    }

    fn add_rack(&mut self, rack: RackChoice) -> Result<Done, Refusal>
        ensures answer { result ≡ (rack_noted (bench_of self.old) rack).0 }
        ensures next { bench_of self.new ≡ (rack_noted (bench_of self.old) rack).1 }
    {
        rack.check()?;
        self.rack = Some(rack);
        Ok(Done::Book(BookDone::Noted))
    }

    fn add_placer(&mut self, placer: PlacerKind) -> Result<Done, Refusal>
        ensures answer { result ≡ (placer_noted (bench_of self.old) placer).0 }
        ensures next { bench_of self.new ≡ (placer_noted (bench_of self.old) placer).1 }
    {
        self.placer = Some(placer);
        Ok(Done::Book(BookDone::Noted))
    }

    fn book_command(&mut self, command: BookCommand) -> Result<Done, Refusal>
        ensures answer { result ≡ (alone_done (bench_of self.old) command).0 }
        ensures next { bench_of self.new ≡ (alone_done (bench_of self.old) command).1 }
    {
        let done = self.alone.carry_out(command)?;
        Ok(Done::Book(done))
    }

    // Sets a book alone, where neither rack nor placer is named.
    fn set(&mut self, delay: u32, dead_time: u32) -> Result<Done, Refusal>
        ensures answer { result ≡ (set_of (bench_of self.old) delay dead_time).0 }
        ensures next { bench_of self.new ≡ (set_of (bench_of self.old) delay dead_time).1 }
    {
        match (self.rack, self.placer) {
            (None, None) => self.book_command(BookCommand::Set { delay, dead_time }),
            (Some(rack), Some(placer)) => Ok(Done::SetPort(Asked {
                rack,
                placer,
                delay,
                dead_time,
            })),
            _ => Err(Refusal::NotUnderstood),
        }
    }

    // A plan for a port with the classes and inputs named. It uses up what was named.
    pub(crate) fn plan_port<R: Rack, P: Placer>(
        &mut self,
        delay: u32,
        dead_time: u32,
        rack: &R,
        placer: &P,
    ) -> Result<Plan, PortFault>
        ensures planned { Planned R.Rack (told_in (bench_of self.old) delay dead_time) rack.now result }
        ensures next { bench_of self.new ≡ used_up (bench_of self.old) }
    {
        let planned = plan::check(&self.alone.setup(delay, dead_time), rack, placer);
        self.alone.use_up();
        self.rack = None;
        self.placer = None;
        planned
    }

    // Gives the book up for a port: drops what is in hand, by rising stream, and answers whose notes those were.
    pub(crate) fn give_up(&mut self) -> [bool; STREAMS]
        ensures dropped { result ≡ in_hand (book_in (bench_of self.old)) }
        ensures next { bench_of self.new ≡ with_book (bench_of self.old) None }
    {
        self.alone.give_up()
    }

    // A book alone has no port.
    fn lacks_port(&self) -> Refusal
        ensures { Err result ≡ lacks_port (book_in (bench_of self.now)) }
    {
        if self.book().is_some() {
            Refusal::NoPort
        } else {
            Refusal::Book(BookRefusal::NothingSet)
        }
    }

    // Carries a command out.
    pub fn carry_out(&mut self, command: Command) -> Result<Done, Refusal>
        ensures answer { result ≡ (carried_out (bench_of self.old) command).0 }
        ensures next { bench_of self.new ≡ (carried_out (bench_of self.old) command).1 }
    {
        match command {
            Command::Book(BookCommand::Set { delay, dead_time }) => self.set(delay, dead_time),
            Command::Book(command) => self.book_command(command),
            Command::Rack(rack) => self.add_rack(rack),
            Command::Placer(placer) => self.add_placer(placer),
            Command::Frame { .. } | Command::Filler(_) | Command::Run { .. } => {
                Err(self.lacks_port())
            }
        }
    }
}
