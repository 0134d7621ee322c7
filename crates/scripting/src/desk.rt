// What has a book, and the notes in hand for it.
ghost use Rattle.std.specs.Prelude.{◌≡◌, ℕ, ◌<◌, None, Some, length, slice_index_or};
ghost use Rattle.std.specs.Option.{option_map};
ghost use Rattle.book.specs.Books.{BookState};
ghost use Rattle.scripting.specs.Notes.{note_at};

use crate::notes::Notes;
use book::ledger::booked::Booked;

mod calls;

// The module that is set and the notes in hand: place k holds the note of stream k just while row k of the module's
// book is held. Whoever calls the module itself leaves its held rows held and holds no others.
pub struct Desk<M: Booked> {
    pub module: Option<M>,
    pub notes: Notes,
    ghost full: { (b : BookState) → option_map M.book «module» ≡ Some b → length b.rows ≡ 128 },
    ghost paired: { (s : ℕ) → s < 128 → slice_index_or notes.places.items s None ≡ note_at (option_map M.book «module») s },
}
