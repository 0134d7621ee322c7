ghost use Rattle.std.specs.Prelude.{◌≡◌, true, []};
ghost use Rattle.book.specs.Sets.{numbers_of};
ghost use Rattle.book.specs.Books.{state_of, new_book};
ghost use Rattle.schedule.specs.Laws.{room_of};
ghost use Rattle.port.specs.Planned.{has_room};
ghost use Rattle.port.specs.Standing.{loads_by, meant, parts_of, Stands};

use crate::plan::Plan;
use crate::ports::Port;
use book::ledger::Book;
use placers::placer::Placer;
use placers::table::Table;
use racks::rack::Rack;

impl<R: Rack, P: Placer> Port<R, P> {
    // A port at clock 0, its wire free and its book new. Over a rack with the room of its plan it stands before any call.
    pub fn make(plan: Plan, rack: R, placer: P) -> Port<R, P>
        ensures book { state_of result.book ≡ new_book (numbers_of plan.settings) }
        ensures rack { result.rack ≡ rack }
        ensures placer { result.placer ≡ placer }
        ensures stands { has_room R.Rack (room_of (numbers_of plan.settings)) rack ≡ true → Stands (loads_by R.Item.Load) P.Placer.rules (numbers_of plan.settings) (P.Placer.records placer) [] (parts_of (meant R.Rack R.Item.Load P.Placer) result) }
    {
        Port {
            book: Book::make(plan.settings),
            rack,
            placer,
            wire: 0,
            stamps: Table::of(0),
        }
    }
}
