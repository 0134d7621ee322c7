ghost use Rattle.std.specs.Prelude.{◌≡◌, true};
ghost use Rattle.racks.specs.Bins.{is_empty};
ghost use Rattle.racks.specs.Sequences.{next_of, after, FirstInFirstOut};
ghost use Rattle.racks.specs.Answers.{answer_of};

use crate::faults::RackFault;
use crate::rack::Rack;

// A call on a rack, as a value.
#[derive(Clone, Copy)]
pub enum RackCall<L> {
    Put(u32, L),
    Take(u32),
    Count(u32),
}

// What a call answers: each kind of call its own result.
#[derive(Clone, Copy)]
pub enum RackAnswer<L> {
    WasPut(Result<(), RackFault>),
    Taken(Result<Option<L>, RackFault>),
    Counted(Result<u32, RackFault>),
}

// Makes one call on a rack.
pub fn step<R: Rack>(rack: &mut R, call: RackCall<R::Item>) -> RackAnswer<R::Item>
    ensures answer { result ≡ answer_of (R.Rack.depth rack.old) (R.Rack.total rack.old) (R.Rack.bins rack.old) call }
    ensures next { R.Rack.bins rack.new ≡ next_of (R.Rack.depth rack.old) (R.Rack.total rack.old) (R.Rack.bins rack.old) call }
    ensures depth { R.Rack.depth rack.new ≡ R.Rack.depth rack.old }
    ensures total { R.Rack.total rack.new ≡ R.Rack.total rack.old }
{
    match call {
        RackCall::Put(bin, load) => RackAnswer::WasPut(rack.put(bin, load)),
        RackCall::Take(bin) => RackAnswer::Taken(rack.take(bin)),
        RackCall::Count(bin) => RackAnswer::Counted(rack.count(bin)),
    }
}

// Makes calls on a rack, one after the other. From an empty rack, each bin is first in, first out:
// the loads taken from it, followed by those in it, are the loads that were put into it, in order.
pub fn drive<R: Rack>(rack: &mut R, calls: &[RackCall<R::Item>])
    ensures next { R.Rack.bins rack.new ≡ after (R.Rack.depth rack.old) (R.Rack.total rack.old) (R.Rack.bins rack.old) calls.now }
    ensures order { is_empty (R.Rack.bins rack.old) ≡ true → FirstInFirstOut (R.Rack.depth rack.old) (R.Rack.total rack.old) (R.Rack.bins rack.old) calls.now (R.Rack.bins rack.new) }
{
    for call in calls {
        let _ = step(rack, *call);
    }
}
