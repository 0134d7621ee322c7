// The notes in hand, one place for each stream.
ghost use Rattle.std.specs.Prelude.{◌≡◌, ℕ, ◌<◌, None, vec_len, slice_index_or};

use book::ledger::Note;

mod calls;

// A list on the heap: notes must be used up, and an array of such values could not be taken apart at its end.
pub struct Notes {
    places: Vec<Option<Note>>,
    ghost all: { vec_len places ≡ 128 },
}

// Notes of which none is in hand, as a desk begins and ends with them.
pub struct Blank {
    notes: Notes,
    ghost none: { (s : ℕ) → s < 128 → slice_index_or notes.places.items s None ≡ None },
}
