// One placer for every rule that goes by the last cycle given and the octets there.
ghost use Rattle.std.specs.Prelude.{◌≡◌, ℕ, Result};
ghost use Rattle.placers.specs.declared.faults.PlacerFault.{PlacerFault};
ghost use Rattle.placers.specs.declared.terms.Terms.{Terms};
ghost use Rattle.placers.specs.declared.terms.Ask.{Ask};
ghost use Rattle.placers.specs.declared.table.Latest.{Latest};
ghost use Rattle.placers.specs.Placers.{Duties};
ghost use Rattle.placers.specs.Latest.{unused, records_of, rules_by};

use crate::faults::PlacerFault;
use crate::placer::Placer;
use crate::table::{Latest, Table};
use crate::terms::{Ask, Terms};
use std::marker::PhantomData;

// Which cycle a frame gets by the record of its stream. A rule keeps the duties of a placer, and a promise of its own.
pub trait Rule {
    ghost next: { Terms → Latest → Ask → Result Latest PlacerFault };

    ghost duties: { Duties (rules_by next) };

    ghost Promise: { Terms → Type 0 };

    // The record after a frame.
    fn next(latest: Latest, terms: Terms, ask: Ask) -> Result<Latest, PlacerFault>
        ensures { result ≡ next terms latest ask };

    ghost promised: { (t : Terms) → Promise t };
}

#[derive(Clone, Copy)]
pub struct ByRule<R: Rule> {
    table: Table<Latest>,
    rule: PhantomData<R>,
}

impl<R: Rule> ByRule<R> {
    // All records are new. The rule does what it promises of every frame.
    pub fn new() -> ByRule<R>
        ensures records { (s : ℕ) → records_of result.table s ≡ unused }
        ensures promise { (t : Terms) → R.Promise t }
    {
        ByRule {
            table: Table::of(Latest::default()),
            rule: PhantomData,
        }
    }
}

impl<R: Rule> Placer for ByRule<R> {
    ghost Record = { Latest };

    ghost records = { λ p. records_of p.table };

    ghost rules = { rules_by R.next };

    ghost duties = { R.duties };

    fn place(&mut self, stream: u8, terms: Terms, ask: Ask) -> Result<u64, PlacerFault> {
        let latest = self.table.read(stream).ok_or(PlacerFault::NotThere)?;
        let next = R::next(latest, terms, ask)?;
        self.table.write(stream, next);
        Ok(next.cycle)
    }

    fn renew(&mut self, stream: u8, _terms: Terms) {
        self.table.write(stream, Latest::default());
    }
}
