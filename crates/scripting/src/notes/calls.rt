ghost use Rattle.std.specs.Prelude.{◌≡◌, ℕ, ◌<◌, Some, None, IfOk, slice_set};
ghost use Rattle.scripting.specs.Notes.{place_of};

use crate::notes::{Blank, Notes};
use book::ledger::Note;
use book::rows::STREAMS;
use std::alloc::{AllocError, Global};
use std::mem;

impl Blank {
    pub fn new(heap: Global) -> Result<Blank, AllocError>
        ensures { IfOk result (λ b. ((s : ℕ) → s < 128 → place_of b.notes s ≡ None)) }
    {
        let mut places = Vec::with_capacity(heap, STREAMS)?;
        // What fills a list in copies its item, and a place for a note cannot be copied.
        for _ in 0..STREAMS {
            places.push_reserved(None);
        }
        let notes = Notes { places };
        Ok(Blank { notes })
    }

    pub fn notes(self) -> Notes
        ensures { (s : ℕ) → s < 128 → place_of result s ≡ None }
    {
        let Blank { notes } = self;
        notes
    }

    pub fn end(self) {
        self.notes().end();
    }
}

impl Notes {
    // Ends the notes, of which none is in hand.
    pub(crate) fn end(self)
        requires { (s : ℕ) → s < 128 → place_of self s ≡ None }
    {
        let Notes { mut places } = self;
        while let Some(place) = places.pop() {
            match place {
                None => {}
                Some(_) => unreachable(),
            }
        }
        places.destroy_empty();
    }

    // The note of a stream, which is then in hand no more.
    pub(crate) fn take(&mut self, stream: u8) -> Option<Note>
        ensures value { result ≡ place_of self.old stream }
        ensures items { self.new.places.items ≡ slice_set self.old.places.items stream None }
    {
        self.places.get_mut(usize::from(stream))?.take()
    }

    // Puts the note of a stream in its place, where there is none.
    pub(crate) fn put(&mut self, stream: u8, note: Note)
        requires { (stream < 128) × (place_of self.old stream ≡ None) }
        ensures { self.new.places.items ≡ slice_set self.old.places.items stream (Some note) }
    {
        match mem::replace(&mut self.places[usize::from(stream)], Some(note)) {
            None => {}
            Some(_) => unreachable(),
        }
    }
}
