// A port that is to be set: its memory and its plans, before the module that stands is given up.
ghost use Rattle.std.specs.Prelude.{◌≡◌};
ghost use Rattle.ecqf_port.specs.Kinds.{places_of};

use crate::answers::Refusal;
use crate::bench::Bench;
use crate::kinds::{Asked, PlacerKind, RackChoice, RackKind};
use loads::marks::Mark;
use placers::by_count::ByCount;
use placers::by_time::ByTime;
use placers::placer::Placer;
use port::plan::Plan;
use racks::cells::CellSlots;
use racks::plan::{Numbers, Plan as RackPlan, check_cells, check_rows};
use racks::rack::Rack;
use racks::rows::RowSlots;
use racks::store::Store;
use scripting::notes::Blank;
use std::alloc::{AllocError, Global};

// The places of a rack, for cells the numbers of next places (none for rows), and the places of the notes. Places and next
// are lent to the rack apart, so each is a list of its own.
pub(crate) struct Memory {
    pub(crate) places: Vec<Mark>,
    pub(crate) next: Vec<u32>,
    pub(crate) blank: Blank,
}

// The plan of a rack and that of a port over it.
#[derive(Clone, Copy)]
pub(crate) struct Plans {
    pub(crate) rack: RackPlan,
    pub(crate) port: Plan,
}

pub(crate) struct Ready {
    pub(crate) kind: RackKind,
    pub(crate) placer: PlacerKind,
    pub(crate) plans: Plans,
    pub(crate) memory: Memory,
}

// How many places a rack needs, and how many numbers of next places.
fn places_of(rack: RackChoice) -> (usize, usize)
    ensures { result ≡ places_of rack }
{
    let Numbers { bins, depth, total } = rack.numbers;
    match rack.kind {
        RackKind::Rows => ((u64::from(bins) * u64::from(depth)) as usize, 0),
        RackKind::Cells => (total as usize, total as usize),
    }
}

impl Memory {
    fn take(heap: Global, rack: RackChoice) -> Result<Memory, AllocError> {
        let (places, next) = places_of(rack);
        let places = vec![in heap; Mark::new(0, 0, 0); places]?;
        let next = vec![in heap; 0; next]?;
        let blank = Blank::new(heap)?;
        Ok(Memory {
            places,
            next,
            blank,
        })
    }

    fn end(self) {
        let Memory {
            places: _,
            next: _,
            blank,
        } = self;
        blank.end();
    }

    // The plans of a rack over these places and of a port over it. They use up what was named. Each kind of slots is a type of
    // its own, and so has an arm.
    fn plans<P: Placer>(
        &mut self,
        bench: &mut Bench,
        asked: Asked,
        placer: &P,
    ) -> Result<Plans, Refusal> {
        let RackChoice { kind, numbers } = asked.rack;
        let places = self.places.as_mut_slice();
        match kind {
            RackKind::Rows => {
                let rack = check_rows(numbers, places)?;
                let mut slots = RowSlots::make(rack);
                let store = Store::over(places, &mut slots);
                port_plan(bench, asked, rack, &store, placer)
            }
            RackKind::Cells => {
                let next = self.next.as_mut_slice();
                let rack = check_cells(numbers, places, next)?;
                let mut slots = CellSlots::make(rack, next);
                let store = Store::over(places, &mut slots);
                port_plan(bench, asked, rack, &store, placer)
            }
        }
    }
}

impl Ready {
    // Gives the memory back.
    pub(crate) fn end(self) {
        let Ready {
            kind: _,
            placer: _,
            plans: _,
            memory,
        } = self;
        memory.end();
    }
}

fn port_plan<R: Rack, P: Placer>(
    bench: &mut Bench,
    asked: Asked,
    rack: RackPlan,
    store: &R,
    placer: &P,
) -> Result<Plans, Refusal> {
    let port = bench.plan_port(asked.delay, asked.dead_time, store, placer)?;
    Ok(Plans { rack, port })
}

// Takes the memory and checks the plans. For want of memory nothing changes.
pub(crate) fn prepare(heap: Global, bench: &mut Bench, asked: Asked) -> Result<Ready, Refusal> {
    let mut memory = Memory::take(heap, asked.rack)?;
    let planned = match asked.placer {
        PlacerKind::ByTime => memory.plans(bench, asked, &ByTime::new()),
        PlacerKind::ByCount => memory.plans(bench, asked, &ByCount::new()),
    };
    match planned {
        Ok(plans) => Ok(Ready {
            kind: asked.rack.kind,
            placer: asked.placer,
            plans,
            memory,
        }),
        Err(refusal) => {
            memory.end();
            Err(refusal)
        }
    }
}
