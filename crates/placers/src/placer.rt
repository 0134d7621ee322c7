ghost use Rattle.std.specs.Prelude.{◌≡◌, ℕ};
ghost use Rattle.placers.specs.Placers.{Rules, Duties, answer_of, placing, stored, renewing};
ghost use Rattle.placers.specs.Terms.{shift_in, LegalTerms};
ghost use Rattle.placers.specs.Sequences.{Passes};

use crate::faults::PlacerFault;
use crate::terms::{Ask, Terms};

// A placer decides into which cycle of its class a frame goes. It keeps a record for each stream, and owes the duties.
pub trait Placer {
    // What it keeps of a stream, and the record of each stream.
    ghost Record: { Type 0 };

    ghost records: { Self → ℕ → Record };
    // What it makes of a frame, from the record of the frame's stream alone.
    ghost rules: { Rules Record };

    ghost duties: { Duties rules };

    // The cycle that a frame of a stream gets. A refusal changes nothing.
    fn place(&mut self, stream: u8, terms: Terms, ask: Ask) -> Result<u64, PlacerFault>
        ensures answer { result ≡ answer_of (placing rules terms (records self.old) stream ask) }
        ensures next { records self.new ≡ stored (records self.old) stream (placing rules terms (records self.old) stream ask) };

    // Makes the record of a stream new, as a confirm does.
    fn renew(&mut self, stream: u8, terms: Terms)
        ensures { records self.new ≡ renewing rules terms (records self.old) stream };
}

// The shift of a stream. Whatever the placer: if the stream keeps its contract, every frame is accepted, at latest this many
// cycles after its input cycle; cycles never go down, and none gets more than the quota.
pub fn latest_after<P: Placer>(_placer: &P, terms: Terms) -> u64
    ensures value { result ≡ shift_in terms }
    ensures passes { LegalTerms terms → Passes P.Placer.rules terms result }
{
    terms.shift()
}
