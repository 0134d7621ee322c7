// A script carried out, on a book alone or on a port, until an accepted set replaces it.
ghost use Rattle.std.specs.Prelude.{◌≡◌, Some};
ghost use Rattle.std.specs.Option.{option_map};
ghost use Rattle.book.specs.Sets.{numbers_of};
ghost use Rattle.book.specs.Books.{new_book};
ghost use Rattle.ecqf_port.specs.Desks.{book_of};
ghost use Rattle.ecqf_port.specs.Lists.{list_places};

use crate::answers::{Done, Refusal};
use crate::bench::Bench;
use crate::kinds::{PlacerKind, RackKind};
use crate::lines::Lines;
use crate::printing::Departures;
use crate::ready::{Memory, Ready};
use crate::script::Command;
use crate::{desk, ready};
use book::frames::SHORTEST_ON_WIRE;
use book::ledger::Book;
use book::rows::STREAMS;
use book::ticks::LAST_TICK;
use loads::marks::Mark;
use placers::by_count::ByCount;
use placers::by_time::ByTime;
use placers::placer::Placer;
use port::plan::Plan;
use port::ports::Port;
use racks::cells::CellSlots;
use racks::rack::Rack;
use racks::rows::RowSlots;
use racks::store::Store;
use schedule::departures::Departure;
use scripting::answers::{Done as BookDone, Refusal as BookRefusal};
use scripting::desk::Desk;
use scripting::notes::Blank;
use scripting::printing::{Page, Shown};
use scripting::script;
use scripting::script::{Command as BookCommand, NotUnderstood};
use std::alloc::Global;
use std::fmt::Display;
use std::io::{BufWriter, Stdout};

// What a script is carried out with, whatever is served.
pub(crate) struct Session {
    pub(crate) heap: Global,
    pub(crate) bench: Bench,
    pub(crate) lines: Lines,
    pub(crate) page: Page<BufWriter<Stdout>>,
}

// What is served; that nothing more is, is told by an Option of it.
pub(crate) enum Served {
    Alone,
    Port(Ready),
}

// The places of a list that is just long enough. None where the tick is refused, so that no memory is taken for it: a port
// would say so only once it has the list.
fn list_places(clock: u64, until: u64, places: Option<u32>) -> u64
    ensures { result ≡ list_places clock until places }
{
    if until < clock || until > LAST_TICK {
        return 0;
    }
    let most = (until - clock) / u64::from(SHORTEST_ON_WIRE) + 1;
    places.map_or(most, |places| most.min(u64::from(places)))
}

// A desk over a new port, and no note in hand.
fn open<R: Rack, P: Placer>(blank: Blank, plan: Plan, rack: R, placer: P) -> Desk<Port<R, P>>
    ensures { option_map book_of result.module ≡ Some (new_book (numbers_of plan.settings)) }
{
    Desk {
        module: Some(Port::make(plan, rack, placer)),
        notes: blank.notes(),
    }
}

fn run_port<R: Rack<Item = Mark>, P: Placer>(
    heap: Global,
    desk: &mut Desk<Port<R, P>>,
    until: u64,
    places: Option<u32>,
) -> Result<Vec<Departure<Mark>>, Refusal> {
    let Some(port) = &desk.module else {
        return Err(Refusal::Book(BookRefusal::NothingSet));
    };
    let places = list_places(port.clock(), until, places);
    let nothing = Departure {
        stream: 0,
        class: 0,
        cycle: 0,
        start: 0,
        load: Mark::new(0, 0, 0),
    };
    let mut list = vec![in heap; nothing; places as usize]?;
    let Some(sent) = desk::run(desk, until, list.as_mut_slice()) else {
        return Err(Refusal::Book(BookRefusal::NothingSet));
    };
    list.truncate(sent?);
    Ok(list)
}

// The answer of a port, or of the bench where the command is not one for a port.
fn port_answer<R: Rack<Item = Mark>, P: Placer>(
    desk: &mut Desk<Port<R, P>>,
    bench: &mut Bench,
    command: Command,
) -> Result<Done, Refusal> {
    match command {
        Command::Book(BookCommand::Call(call)) => {
            let done = desk.carry_out(call)?;
            Ok(Done::Book(done))
        }
        Command::Book(BookCommand::Advance(_)) => Err(Refusal::PortRuns),
        Command::Frame { input, stamp, mark } => {
            let Some(placed) = desk::frame(desk, input, stamp, mark) else {
                return Err(Refusal::Book(BookRefusal::NothingSet));
            };
            Ok(Done::Cycle(placed?))
        }
        Command::Filler(length) => {
            let (Some(filled), Some(port)) = (desk::filler(desk, length), &desk.module) else {
                return Err(Refusal::Book(BookRefusal::NothingSet));
            };
            filled?;
            Ok(Done::TakenUntil(port.wire()))
        }
        _ => bench.carry_out(command),
    }
}

fn book_at<R: Rack, P: Placer>(desk: &Desk<Port<R, P>>) -> Option<&Book> {
    desk.module.as_ref().map(Port::book)
}

impl Session {
    // Prints what the line that was read last answers.
    fn answer<D: Display + Drop>(&mut self, answer: D) {
        self.page.line(self.lines.line(), answer);
    }

    fn not_understood(&mut self) {
        self.answer(NotUnderstood);
        self.lines.doubt();
    }

    fn refused(&mut self, refusal: Refusal) {
        match refusal {
            Refusal::NotUnderstood => self.not_understood(),
            _ => self.answer(refusal),
        }
    }

    // The lines of a set that replaces a module: the notes that were dropped, and then its own.
    fn replaced(&mut self, dropped: &[bool; STREAMS]) {
        self.page.dropped(dropped);
        self.answer("set");
    }

    // The next command, if there is one. Lines before it say nothing, or are not understood.
    fn next_command(&mut self) -> Option<Command> {
        // A loop that reads counts its turns, since every loop has a bound.
        for _ in 0..u64::MAX {
            if self.page.has_failed() || !self.lines.read_next() {
                return None;
            }
            match script::parse(self.lines.line()) {
                Ok(Some(command)) => return Some(command),
                Ok(None) => {}
                Err(NotUnderstood) => self.not_understood(),
            }
        }
        None
    }

    // Carries a command out on a book alone, or where nothing is set, until it sets a port.
    fn alone_command(&mut self, command: Command) -> Option<Ready> {
        match self.bench.carry_out(command) {
            Ok(Done::SetPort(asked)) => match ready::prepare(self.heap, &mut self.bench, asked) {
                Ok(ready) => {
                    let dropped = self.bench.give_up();
                    self.replaced(&dropped);
                    return Some(ready);
                }
                Err(refusal) => self.refused(refusal),
            },
            Ok(Done::Book(BookDone::Set { dropped })) => self.replaced(&dropped),
            Ok(Done::Book(BookDone::Shown)) => {
                let shown = Shown(self.bench.book());
                self.page.line(self.lines.line(), shown);
            }
            Ok(done) => self.answer(done),
            Err(refusal) => self.refused(refusal),
        }
        None
    }

    // Serves a book alone, or nothing that is set. None where the script ends.
    fn serve_alone(&mut self) -> Option<Served> {
        // Bounded as above.
        for _ in 0..u64::MAX {
            let command = self.next_command()?;
            if let Some(ready) = self.alone_command(command) {
                return Some(Served::Port(ready));
            }
        }
        None
    }

    // A set beside a port: what is to be served in its place.
    fn set_beside(&mut self, command: Command) -> Result<Served, Refusal> {
        match self.bench.carry_out(command)? {
            Done::SetPort(asked) => {
                let ready = ready::prepare(self.heap, &mut self.bench, asked)?;
                Ok(Served::Port(ready))
            }
            _ => Ok(Served::Alone),
        }
    }

    // Carries a command out on a port, until it sets what is to be served in its place.
    fn port_command<R: Rack<Item = Mark>, P: Placer>(
        &mut self,
        desk: &mut Desk<Port<R, P>>,
        command: Command,
    ) -> Option<Served> {
        match command {
            Command::Book(BookCommand::Set { .. }) => match self.set_beside(command) {
                Ok(served) => return Some(served),
                Err(refusal) => self.refused(refusal),
            },
            Command::Book(BookCommand::Show) => self.answer(Shown(book_at(desk))),
            Command::Run { until, places } => match run_port(self.heap, desk, until, places) {
                Ok(list) => self.answer(Departures(list.as_slice())),
                Err(refusal) => self.refused(refusal),
            },
            _ => match port_answer(desk, &mut self.bench, command) {
                Ok(done) => self.answer(done),
                Err(refusal) => self.refused(refusal),
            },
        }
        None
    }

    // Serves a port. None where the script ends.
    fn serve_port<R: Rack<Item = Mark> + Drop, P: Placer + Drop>(
        &mut self,
        mut desk: Desk<Port<R, P>>,
    ) -> Option<Served> {
        // Bounded as above.
        for _ in 0..u64::MAX {
            let Some(command) = self.next_command() else {
                break;
            };
            if let Some(served) = self.port_command(&mut desk, command) {
                self.replaced(&desk.close());
                return Some(served);
            }
        }
        self.page.dropped(&desk.close());
        None
    }

    // Serves a port over the racks that are ready. Slots, and placers, differ in their types, so that each kind has its arm.
    fn serve_over<P: Placer + Drop>(&mut self, ready: Ready, placer: P) -> Option<Served> {
        let Ready {
            kind,
            placer: _,
            plans,
            memory,
        } = ready;
        let Memory {
            mut places,
            mut next,
            blank,
        } = memory;
        let places = places.as_mut_slice();
        match kind {
            RackKind::Rows => {
                let mut slots = RowSlots::make(plans.rack);
                let store = Store::over(places, &mut slots);
                self.serve_port(open(blank, plans.port, store, placer))
            }
            RackKind::Cells => {
                let mut slots = CellSlots::make(plans.rack, next.as_mut_slice());
                let store = Store::over(places, &mut slots);
                self.serve_port(open(blank, plans.port, store, placer))
            }
        }
    }

    // Serves a port that is ready. None where the script ends.
    fn serve_ready(&mut self, ready: Ready) -> Option<Served> {
        match ready.placer {
            PlacerKind::ByTime => self.serve_over(ready, ByTime::new()),
            PlacerKind::ByCount => self.serve_over(ready, ByCount::new()),
        }
    }

    // Runs a script to its end.
    pub(crate) fn run(&mut self) {
        let mut next = Some(Served::Alone);
        // Bounded as above.
        for _ in 0..u64::MAX {
            let Some(served) = next else {
                return;
            };
            next = match served {
                Served::Alone => self.serve_alone(),
                Served::Port(ready) => self.serve_ready(ready),
            };
        }
        // No script is that long; what is ready must be ended all the same.
        match next {
            Some(Served::Port(ready)) => ready.end(),
            Some(Served::Alone) => {}
            None => {}
        }
    }
}
