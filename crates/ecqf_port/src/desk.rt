// The calls that a port has and a book has not, on the port of a desk: each goes by the rules of a module, as the port's own
// call does. No answer comes where the desk has no port.
ghost use Rattle.std.specs.Prelude.{◌≡◌, length, is_some, IfSome};
ghost use Rattle.std.specs.Option.{option_map};
ghost use Rattle.schedule.specs.Histories.{Frame, Filler, Run, placed, filled};
ghost use Rattle.port.specs.Standing.{meant, ran_of, ran_book, LeftAlone};
ghost use Rattle.ecqf_port.specs.Desks.{book_of, OnPort};

use placers::placer::Placer;
use port::ports::Port;
use racks::rack::Rack;
use schedule::departures::Departure;
use schedule::faults::PortFault;
use scripting::desk::Desk;

pub(crate) fn frame<R: Rack, P: Placer>(
    desk: &mut Desk<Port<R, P>>,
    input: u8,
    stamp: u64,
    load: R::Item,
) -> Option<Result<u64, PortFault>>
    ensures follows { OnPort (meant R.Rack R.Item.Load P.Placer) (Frame input stamp load) desk.old.module desk.new.module (option_map placed result) }
    ensures book { option_map book_of desk.new.module ≡ option_map book_of desk.old.module }
    ensures answered { is_some result ≡ is_some desk.old.module }
{
    let Some(port) = &mut desk.module else {
        return None;
    };
    Some(port.frame(input, stamp, load))
}

pub(crate) fn filler<R: Rack, P: Placer>(
    desk: &mut Desk<Port<R, P>>,
    length: u16,
) -> Option<Result<(), PortFault>>
    ensures follows { OnPort (meant R.Rack R.Item.Load P.Placer) (Filler length) desk.old.module desk.new.module (option_map filled result) }
    ensures book { option_map book_of desk.new.module ≡ option_map book_of desk.old.module }
    ensures answered { is_some result ≡ is_some desk.old.module }
{
    let Some(port) = &mut desk.module else {
        return None;
    };
    Some(port.filler(length))
}

pub(crate) fn run<R: Rack, P: Placer>(
    desk: &mut Desk<Port<R, P>>,
    until: u64,
    list: &mut [Departure<R::Item>],
) -> Option<Result<usize, PortFault>>
    ensures follows { OnPort (meant R.Rack R.Item.Load P.Placer) (Run until (length list.old)) desk.old.module desk.new.module (option_map (λ r. ran_of r list.new) result) }
    ensures book { IfSome result (λ r. option_map book_of desk.new.module ≡ option_map (λ p. ran_book r until (book_of p)) desk.old.module) }
    ensures alone { IfSome result (λ r. LeftAlone r list.old list.new) }
    ensures answered { is_some result ≡ is_some desk.old.module }
{
    let Some(port) = &mut desk.module else {
        return None;
    };
    Some(port.run(until, list))
}
