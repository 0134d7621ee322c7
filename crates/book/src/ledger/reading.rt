ghost use Rattle.std.specs.Prelude.{◌≡◌};
ghost use Rattle.book.specs.Sets.{numbers_of, class_at};
ghost use Rattle.book.specs.Books.{state_of, read_row, read_booked, read_spare};

use crate::faults::BookFault;
use crate::ledger::sums::Sums;
use crate::ledger::{Book, Note};
use crate::rows;
use crate::rows::Row;
use crate::setup::{Class, Settings};

impl Note {
    // The stream whose hold the note is for.
    pub fn stream(&self) -> u8
        ensures { result ≡ self.now.stream }
    {
        self.stream
    }
}

impl Book {
    // What the book was made with.
    pub fn settings(&self) -> &Settings
        ensures { numbers_of result.now ≡ (state_of self.now).settings }
    {
        &self.settings
    }

    // A class by its number, if it is there.
    pub fn class(&self, class: u8) -> Option<Class>
        ensures { result ≡ class_at (state_of self.now).settings class }
    {
        self.settings.class(class)
    }

    pub fn clock(&self) -> u64
        ensures { result ≡ (state_of self.now).clock }
    {
        self.clock
    }

    pub fn row(&self, stream: u8) -> Result<Row, BookFault>
        ensures { result ≡ read_row (state_of self.now) stream }
    {
        let row = self.rows.get(usize::from(stream)).copied();
        row.ok_or(BookFault::NotThere)
    }

    // The octets booked per cycle of a class.
    pub fn booked(&self, class: u8) -> Result<u64, BookFault>
        ensures { result ≡ read_booked (state_of self.now) class }
    {
        if class >= self.settings.class_count() {
            return Err(BookFault::NotThere);
        }
        Ok(rows::booked(&self.rows, class))
    }

    // The ticks that the bookings leave of a class's cycle.
    pub fn spare(&self, class: u8) -> Result<u64, BookFault>
        ensures { result ≡ read_spare (state_of self.now) class }
    {
        let cycle = self.class(class).ok_or(BookFault::NotThere)?.cycle;
        let sums = Sums {
            settings: &self.settings,
            rows: &self.rows,
        };
        Ok(u64::from(cycle) - sums.demand(class))
    }
}
