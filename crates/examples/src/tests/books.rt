use book::faults::BookFault;
use book::faults::BookFault::*;
use book::ledger::Book;
use book::rows::{Booking, Row};
use book::setup::{Class, Settings, Setup};
use std::test::Fail;

// A booking of 64 octets at input 0.
fn booking(class: u8, quota: u32) -> Booking {
    Booking {
        input: 0,
        class,
        longest: 64,
        quota,
    }
}

// Classes of 4,000 and 16,000 ticks with three and two bins, a dead time of 100 and one input.
fn two_classes(number: u64) -> Result<Book, BookFault> {
    let fast = Class {
        cycle: 4_000,
        bins: 3,
    };
    let slow = Class {
        cycle: 16_000,
        bins: 2,
    };
    let settings = Settings::check(&Setup {
        number,
        delay: 0,
        dead_time: 100,
        classes: &[fast, slow],
        phases: &[0],
    })?;
    Ok(Book::make(settings))
}

// A hold that is confirmed. Each crate of tests has its own: a public function for it would be for tests alone.
fn admit(book: &mut Book, stream: u8, booking: Booking) -> Result<(), BookFault> {
    let note = book.hold(stream, booking)?;
    match book.confirm(note) {
        Ok(()) => Ok(()),
        Err((_, _)) => unreachable(),
    }
}

// A hold that is dropped again.
fn hold_and_drop(book: &mut Book, stream: u8, booking: Booking) -> Result<(), BookFault> {
    let note = book.hold(stream, booking)?;
    match book.drop_hold(note) {
        Ok(()) => Ok(()),
        Err((_, _)) => unreachable(),
    }
}

// Stream, input, class, longest, quota, and what the hold answers where the book is empty.
#[test]
fn what_a_hold_names_and_its_lengths(rt: HostRuntime) -> Result<(), Fail> {
    let mut book = two_classes(0)?;
    let cases = [
        (127, 0, 0, 64, 84, Ok(())),
        (128, 0, 0, 64, 84, Err(NotThere)),
        (0, 1, 0, 64, 84, Err(NotThere)),
        (0, 0, 1, 64, 84, Ok(())),
        (0, 0, 2, 64, 84, Err(NotThere)),
        (0, 0, 0, 63, 200, Err(BadLengths)),
        (0, 0, 0, 1_522, 1_542, Ok(())),
        (0, 0, 0, 1_523, 1_600, Err(BadLengths)),
        (0, 0, 0, 100, 119, Err(BadLengths)),
        (0, 0, 0, 100, 120, Ok(())),
        // Two rules broken: the first is named.
        (255, 255, 255, 63, 0, Err(NotThere)),
        (0, 0, 0, 63, 4_294_967_295, Err(BadLengths)),
        (0, 0, 0, 64, 2_358, Ok(())),
        (0, 0, 0, 64, 2_359, Err(Over { class: 0, ticks: 1 })),
        // Both classes fail, and the lower one is named.
        (
            0,
            0,
            0,
            64,
            4_294_967_295,
            Err(Over {
                class: 0,
                ticks: 4_294_964_937,
            }),
        ),
    ];
    for (stream, input, class, longest, quota, answer) in cases {
        let booking = Booking {
            input,
            class,
            longest,
            quota,
        };
        assert_eq!(rt; hold_and_drop(&mut book, stream, booking), answer);
    }
    Ok(())
}

// Stream, class, quota, and what the hold answers after those above it.
#[test]
fn the_sums_of_all_faster_classes(rt: HostRuntime) -> Result<(), Fail> {
    let mut book = two_classes(0)?;
    let cases = [
        (0, 0, 2_358, Ok(())),
        (0, 0, 4_294_967_295, Err(WrongState)),
        (1, 1, 4_927, Err(Over { class: 1, ticks: 1 })),
        (
            1,
            1,
            4_294_967_295,
            Err(Over {
                class: 1,
                ticks: 4_294_962_369,
            }),
        ),
        (1, 1, 4_926, Ok(())),
        (
            2,
            1,
            84,
            Err(Over {
                class: 1,
                ticks: 84,
            }),
        ),
    ];
    for (stream, class, quota, answer) in cases {
        assert_eq!(rt; admit(&mut book, stream, booking(class, quota)), answer);
    }
    assert_eq!(rt;
        (book.booked(0), book.booked(1), book.booked(2)),
        (Ok(2_358), Ok(4_926), Err(NotThere))
    );
    assert_eq!(rt;
        (book.spare(0), book.spare(1), book.spare(2)),
        (Ok(0), Ok(0), Err(NotThere))
    );
    Ok(())
}

// What a test does to the row of stream 5.
#[derive(Clone, Copy)]
enum Call {
    Admit,
    HoldAndDrop,
    Release,
    Advance(u64),
}

// What the call answers, with the cycle that a release names.
fn perform(book: &mut Book, call: Call) -> Result<Option<u64>, BookFault> {
    match call {
        Call::Admit => admit(book, 5, booking(0, 84))?,
        Call::HoldAndDrop => hold_and_drop(book, 5, booking(0, 84))?,
        Call::Release => return book.release(5).map(Some),
        Call::Advance(until) => book.advance(until)?,
    }
    Ok(None)
}

// Call, answer, the row after it. Released in cycle 2 of a class with three bins, the row is free from the start of cycle 5 on.
#[test]
fn a_row_through_all_its_states(rt: HostRuntime) -> Result<(), Fail> {
    let mut book = two_classes(0)?;
    let held = booking(0, 84);
    let steps = [
        (Call::Release, Err(WrongState), Row::Free),
        (Call::HoldAndDrop, Ok(None), Row::Free),
        (Call::Admit, Ok(None), Row::Live(held)),
        (Call::Admit, Err(WrongState), Row::Live(held)),
        (Call::Advance(9_000), Ok(None), Row::Live(held)),
        (Call::Release, Ok(Some(5)), Row::Leaving(held, 5)),
        (Call::Release, Err(WrongState), Row::Leaving(held, 5)),
        (Call::HoldAndDrop, Err(WrongState), Row::Leaving(held, 5)),
        (Call::Advance(8_999), Err(BadUntil), Row::Leaving(held, 5)),
        (Call::Advance(19_999), Ok(None), Row::Leaving(held, 5)),
        (Call::Advance(20_000), Ok(None), Row::Free),
        (Call::Admit, Ok(None), Row::Live(held)),
        (Call::Release, Ok(Some(8)), Row::Leaving(held, 8)),
        (
            Call::Advance(1_099_511_627_776),
            Err(BadUntil),
            Row::Leaving(held, 8),
        ),
        (Call::Advance(1_099_511_627_775), Ok(None), Row::Free),
    ];
    for (call, answer, then) in steps {
        assert_eq!(rt; perform(&mut book, call), answer);
        assert_eq!(rt; book.row(5), Ok(then));
    }
    assert_eq!(rt; book.release(128), Err(NotThere));
    assert_eq!(rt; book.row(128), Err(NotThere));
    Ok(())
}

// What another book says to the note of a hold, which is then dropped where it is good.
fn told_elsewhere(
    book: &mut Book,
    other: &mut Book,
    booking: Booking,
) -> Result<Option<BookFault>, BookFault> {
    let note = book.hold(5, booking)?;
    match other.confirm(note) {
        Ok(()) => Ok(None),
        Err((fault, note)) => match book.drop_hold(note) {
            Ok(()) => Ok(Some(fault)),
            Err((_, _)) => unreachable(),
        },
    }
}

// A book of another number, and one of the same number whose row is not held.
#[test]
fn a_note_is_good_in_its_own_book_only(rt: HostRuntime) -> Result<(), Fail> {
    for number in 0..2 {
        let mut book = two_classes(0)?;
        let mut other = two_classes(number)?;
        assert_eq!(rt;
            told_elsewhere(&mut book, &mut other, booking(0, 84))?,
            Some(WrongState)
        );
        assert_eq!(rt; (book.row(5), other.row(5)), (Ok(Row::Free), Ok(Row::Free)));
    }
    Ok(())
}
