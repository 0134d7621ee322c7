ghost use Rattle.std.specs.Prelude.{◌≡◌};
ghost use Rattle.book.specs.Sets.{class_at};
ghost use Rattle.book.specs.Books.{state_of, read_row, read_booked, read_spare};
ghost use Rattle.port.specs.Rowed.{held_booking, live_booking};

use crate::ports::Port;
use book::faults::BookFault;
use book::ledger::Book;
use book::rows::{Booking, Row};
use book::setup::Class;

impl<R, P> Port<R, P> {
    // The port's own book, to be read.
    pub fn book(&self) -> &Book
        ensures { result.now ≡ self.now.book }
    {
        &self.book
    }

    pub fn clock(&self) -> u64
        ensures { result ≡ (state_of self.now.book).clock }
    {
        self.book.clock()
    }

    // The tick from which on the wire is free.
    pub fn wire(&self) -> u64
        ensures { result ≡ self.now.wire }
    {
        self.wire
    }

    // A class by its number, if it is there.
    pub fn class(&self, class: u8) -> Option<Class>
        ensures { result ≡ class_at (state_of self.now.book).settings class }
    {
        self.book.class(class)
    }

    pub fn row(&self, stream: u8) -> Result<Row, BookFault>
        ensures { result ≡ read_row (state_of self.now.book) stream }
    {
        self.book.row(stream)
    }

    // The booking of a stream that is there and whose row is held. It and the live one are read in a line each, so that one
    // function over both would be no plainer.
    pub(crate) fn held(&self, stream: u8) -> Option<Booking>
        ensures { result ≡ held_booking (state_of self.now.book) stream }
    {
        self.row(stream).ok()?.held()
    }

    // The booking of a stream that is there and whose row is live.
    pub(crate) fn live(&self, stream: u8) -> Option<Booking>
        ensures { result ≡ live_booking (state_of self.now.book) stream }
    {
        self.row(stream).ok()?.live()
    }

    // The octets booked per cycle of a class.
    pub fn booked(&self, class: u8) -> Result<u64, BookFault>
        ensures { result ≡ read_booked (state_of self.now.book) class }
    {
        self.book.booked(class)
    }

    // The ticks that the bookings leave of a class's cycle.
    pub fn spare(&self, class: u8) -> Result<u64, BookFault>
        ensures { result ≡ read_spare (state_of self.now.book) class }
    {
        self.book.spare(class)
    }
}
