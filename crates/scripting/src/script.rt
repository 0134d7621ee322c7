// The commands on a book, and a line read as a command.
ghost use Rattle.std.specs.Prelude.{◌≡◌, ℕ, List, Option};
ghost use Rattle.scripting.specs.Readings.{says_nothing, line_of};
ghost use Rattle.scripting.specs.Script.{bins_in, class_in, set_in, hold_in, command_in};

use crate::words::{Words, is};
use book::rows::Booking;
use book::setup::Class;

// A call on whatever has a book, with its numbers.
#[derive(Clone, Copy)]
pub enum Call {
    Hold { stream: u8, booking: Booking },
    Confirm(u8),
    Drop(u8),
    Release(u8),
}

// A command with its numbers.
#[derive(Clone, Copy)]
pub enum Command {
    Bins { delay: u32, cycle: u32, phase: u32 },
    AddClass(Class),
    AddInput(u32),
    Set { delay: u32, dead_time: u32 },
    Call(Call),
    Advance(u64),
    Show,
}

// A line is no command.
#[derive(Clone, Copy)]
pub struct NotUnderstood;

// What the first word of a line says with the words after it.
pub trait FromLine: Sized {
    ghost in_line: { List ℕ → List ℕ → Option Self };

    fn from_line(word: &[u8], words: &mut Words) -> Option<Self>
        ensures { result ≡ in_line word.now words.old.rest.now };
}

fn read_bins(words: &mut Words) -> Option<Command>
    ensures { result ≡ bins_in words.old.rest.now }
{
    let delay = words.read()?;
    let cycle = words.read()?;
    let phase = words.read()?;
    words.end(Command::Bins {
        delay,
        cycle,
        phase,
    })
}

fn read_class(words: &mut Words) -> Option<Command>
    ensures { result ≡ class_in words.old.rest.now }
{
    let cycle = words.read()?;
    let bins = words.read()?;
    words.end(Command::AddClass(Class { cycle, bins }))
}

fn read_set(words: &mut Words) -> Option<Command>
    ensures { result ≡ set_in words.old.rest.now }
{
    let delay = words.read()?;
    let dead_time = words.read()?;
    words.end(Command::Set { delay, dead_time })
}

fn read_hold(words: &mut Words) -> Option<Command>
    ensures { result ≡ hold_in words.old.rest.now }
{
    let stream = words.read()?;
    let input = words.read()?;
    let class = words.read()?;
    let longest = words.read()?;
    let quota = words.read()?;
    let booking = Booking {
        input,
        class,
        longest,
        quota,
    };
    words.end(Command::Call(Call::Hold { stream, booking }))
}

impl FromLine for Command {
    ghost in_line = { command_in };

    fn from_line(word: &[u8], words: &mut Words) -> Option<Command> {
        if is(word, b"bins") {
            read_bins(words)
        } else if is(word, b"class") {
            read_class(words)
        } else if is(word, b"input") {
            words.last().map(Command::AddInput)
        } else if is(word, b"set") {
            read_set(words)
        } else if is(word, b"hold") {
            read_hold(words)
        } else if is(word, b"confirm") {
            words
                .last()
                .map(|stream| Command::Call(Call::Confirm(stream)))
        } else if is(word, b"drop") {
            words.last().map(|stream| Command::Call(Call::Drop(stream)))
        } else if is(word, b"release") {
            words
                .last()
                .map(|stream| Command::Call(Call::Release(stream)))
        } else if is(word, b"advance") {
            words.last().map(Command::Advance)
        } else if is(word, b"show") {
            words.end(Command::Show)
        } else {
            None
        }
    }
}

fn says_nothing(word: &[u8]) -> bool
    ensures { result ≡ says_nothing word.now }
{
    word.first().is_none_or(|byte| *byte == b'#')
}

// What a line says: nothing where it is blank or a remark.
pub fn parse<C: FromLine>(line: &[u8]) -> Result<Option<C>, NotUnderstood>
    ensures { result ≡ line_of C.in_line line.now }
{
    let mut words = Words::of(line);
    let first = words.next();
    if says_nothing(first) {
        return Ok(None);
    }
    let Some(command) = C::from_line(first, &mut words) else {
        return Err(NotUnderstood);
    };
    Ok(Some(command))
}
