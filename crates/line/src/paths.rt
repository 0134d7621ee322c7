ghost use Rattle.std.specs.Prelude.{◌≡◌, MatchBool, MatchResult};
ghost use Rattle.line.specs.Paths.{differ, Follows, Sound, Travels, Booked, RefusedAt, PathAnswer};

use crate::banks::Bank;
use crate::faults::{LegFault, LineFault};
use crate::legs::{Leg, Request};
use book::setup::Class;

const MOST_LEGS: usize = 16;

// Books the legs, or leaves every module as it was. The note of a leg is held while the rest is booked.
fn book_legs<B: Bank>(bank: &mut B, request: Request, legs: &[Leg]) -> Result<(), LegFault>
    requires { Sound B.Bank.size legs.now }
    ensures { MatchResult result
        (λ _. Booked B.Bank bank.old bank.new request legs.now)
        (λ e. RefusedAt B.Bank bank.old bank.new request legs.now e.place e.fault) }
{
    let Some((leg, rest)) = legs.split_first() else {
        return Ok(());
    };
    let note = bank
        .hold(leg.number, request.stream, request.booking(leg))
        .map_err(|fault| LegFault { place: 0, fault })?;
    match book_legs(bank, request, rest) {
        Ok(()) => match bank.confirm(leg.number, note) {
            Ok(()) => Ok(()),
            Err(_) => unreachable(),
        },
        Err(later) => match bank.drop_hold(leg.number, note) {
            Ok(()) => Err(LegFault {
                place: later.place + 1,
                fault: later.fault,
            }),
            Err(_) => unreachable(),
        },
    }
}

// Both classes are there, and their cycle times differ.
fn is_apart(a: Option<Class>, b: Option<Class>) -> bool
    ensures { result ≡ differ a b }
{
    a.zip(b).is_some_and(|(a, b)| a.cycle != b.cycle)
}

// The leg's module is there and none of those of the legs before, and its cycle time differs from none of theirs.
fn follows<B: Bank>(bank: &B, before: &[Leg], leg: &Leg) -> bool
    ensures { MatchBool result (Follows B.Bank bank.now before.now leg.now) (Follows B.Bank bank.now before.now leg.now → ⊥) }
{
    let class = bank.class(leg.number, leg.class);
    bank.has(leg.number)
        && before.iter().all(|other| other.number != leg.number
            && !is_apart(bank.class(other.number, other.class), class))
}

// The line has such a path.
fn travels<B: Bank>(bank: &B, legs: &[Leg]) -> bool
    ensures { MatchBool result (Travels B.Bank bank.now legs.now) (Travels B.Bank bank.now legs.now → ⊥) }
{
    if !(1..=MOST_LEGS).contains(&legs.len()) {
        return false;
    }
    // The place of a leg tells which are before it.
    for (i, leg) in legs.iter().enumerate() {
        if !follows(bank, &legs[..i], leg) {
            return false;
        }
    }
    true
}

// Books a path: holds the same longest frame and quota at each leg and confirms all, or leaves every module as it was.
pub fn book_path<B: Bank>(bank: &mut B, request: Request, legs: &[Leg]) -> Result<(), LineFault>
    ensures { PathAnswer B.Bank bank.old bank.new request legs.now result }
{
    if !travels(bank, legs) {
        return Err(LineFault::NoPath);
    }
    book_legs(bank, request, legs)?;
    Ok(())
}
