// The lines that the programs print.
ghost use Rattle.std.specs.Prelude.{◌≡◌, true};
ghost use Rattle.std.specs.Result.{is_ok, is_err};

use crate::answers::{Done, Refusal};
use crate::script::NotUnderstood;
use crate::words::Words;
use book::faults::BookFault;
use book::ledger::Book;
use book::rows::{Booking, LAST_STREAM, Row, STREAMS};
use std::io::Write;
use std::{fmt, io};

// The output. After a write that fails nothing more is written, and the end tells of it.
#[derive(Drop)]
pub struct Page<W> {
    out: W,
    written: io::Result<()>,
}

// What show prints of the book that is set. Its lines but the first begin with their line breaks, since the last has
// one after the answer.
#[derive(Clone, Copy, Drop)]
pub struct Shown<'a>(pub Option<&'a Book>);

impl<W: Write + Drop> Page<W> {
    pub fn over(out: W) -> Page<W>
        ensures out { result.out ≡ out }
        ensures written { is_ok result.written ≡ true }
    {
        Page {
            out,
            written: Ok(()),
        }
    }

    pub fn has_failed(&self) -> bool
        ensures { result ≡ is_err self.now.written }
    {
        self.written.is_err()
    }

    fn bytes(&mut self, bytes: &[u8])
        ensures { is_err self.old.written ≡ true → self.new ≡ self.old }
    {
        if self.has_failed() {
            return;
        }
        self.written = self.out.write_all(bytes);
    }

    fn text<D: fmt::Display + Drop>(&mut self, text: D)
        ensures { is_err self.old.written ≡ true → self.new ≡ self.old }
    {
        if self.written.is_ok() {
            self.written = write!(self.out, "{text}");
        }
    }

    // A line of a script and its answer: the words, joined by one space, and an arrow before the answer.
    pub fn line<D: fmt::Display + Drop>(&mut self, line: &[u8], answer: D)
        ensures { is_err self.old.written ≡ true → self.new ≡ self.old }
    {
        let mut words = Words::of(line);
        self.bytes(words.next());
        // Words are no iterator, whose laws would be longer than this.
        loop {
            let word = words.next();
            if word.is_empty() {
                break;
            }
            self.bytes(b" ");
            self.bytes(word);
        }
        // What is the same in every line is written as it stands: formatting it would take a fifth of the line's time.
        self.bytes(b" => ");
        self.text(answer);
        self.bytes(b"\n");
    }

    // A line for each note that was dropped, by rising stream.
    pub fn dropped(&mut self, dropped: &[bool; STREAMS])
        ensures { is_err self.old.written ≡ true → self.new ≡ self.old }
    {
        for (stream, is_dropped) in dropped.iter().enumerate() {
            if *is_dropped {
                self.text(format_args!("drop {stream} => free\n"));
            }
        }
    }

    // Writes what is not written yet.
    pub fn end(self) -> io::Result<()>
        ensures { is_err self.written ≡ true → result ≡ self.written }
    {
        let Page { mut out, written } = self;
        written?;
        out.flush()
    }
}

impl fmt::Display for NotUnderstood {
    fn fmt<W: fmt::Write>(&self, f: &mut fmt::Formatter<W>) -> fmt::Result {
        f.write_str("not understood")
    }
}

// The lines of a show are the book's.
impl fmt::Display for Done {
    fn fmt<W: fmt::Write>(&self, f: &mut fmt::Formatter<W>) -> fmt::Result {
        match self {
            Done::Noted => f.write_str("noted"),
            Done::Set { .. } => f.write_str("set"),
            Done::Held => f.write_str("held"),
            Done::Live => f.write_str("live"),
            Done::Free => f.write_str("free"),
            Done::LeavingUntil(cycle) => write!(f, "leaving until cycle {cycle}"),
            Done::Clock(tick) => write!(f, "clock {tick}"),
            Done::Bins(bins) => write!(f, "{bins} bins"),
            Done::Shown => Ok(()),
        }
    }
}

impl fmt::Display for Refusal {
    fn fmt<W: fmt::Write>(&self, f: &mut fmt::Formatter<W>) -> fmt::Result {
        match self {
            Refusal::Book(fault) => {
                write!(f, "refused {} book", fault.number())?;
                if let BookFault::Over { class, ticks } = fault {
                    write!(f, " class {class} over {ticks}")?;
                }
                Ok(())
            }
            Refusal::NoNote => f.write_str("no note"),
            Refusal::NothingSet => f.write_str("nothing is set"),
        }
    }
}

impl<'a> fmt::Display for Shown<'a> {
    fn fmt<W: fmt::Write>(&self, f: &mut fmt::Formatter<W>) -> fmt::Result {
        let Some(book) = self.0 else {
            return Ok(());
        };
        write!(f, "clock {}", book.clock())?;
        // A book tells its classes and its rows by their numbers.
        for at in 0..book.settings().class_count() {
            show_class(f, book, at)?;
        }
        for stream in 0..=LAST_STREAM {
            show_row(f, stream, book.row(stream).unwrap_or(Row::Free))?;
        }
        Ok(())
    }
}

fn show_class<W: fmt::Write>(f: &mut fmt::Formatter<W>, book: &Book, at: u8) -> fmt::Result {
    let Some(class) = book.class(at) else {
        return Ok(());
    };
    // A class that is there has both.
    let booked = book.booked(at).unwrap_or(0);
    let spare = book.spare(at).unwrap_or(0);
    write!(
        f,
        "\n  class {at} cycle {} bins {}",
        class.cycle, class.bins
    )?;
    write!(f, " booked {booked} spare {spare}")
}

fn show_row<W: fmt::Write>(f: &mut fmt::Formatter<W>, stream: u8, row: Row) -> fmt::Result {
    let booking = match row {
        Row::Free => return Ok(()),
        Row::Held(booking) => {
            write!(f, "\n  stream {stream} held")?;
            booking
        }
        Row::Live(booking) => {
            write!(f, "\n  stream {stream} live")?;
            booking
        }
        Row::Leaving(booking, cycle) => {
            write!(f, "\n  stream {stream} leaving until cycle {cycle}")?;
            booking
        }
    };
    let Booking {
        input,
        class,
        longest,
        quota,
    } = booking;
    write!(
        f,
        " input {input} class {class} longest {longest} quota {quota}"
    )
}
