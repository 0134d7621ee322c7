// The commands of a script, and a line read as one.
ghost use Rattle.std.specs.Prelude.{◌≡◌};
ghost use Rattle.ecqf_port.specs.Script.{command_in, rack_in, frame_in, run_in};

use crate::kinds::{PlacerKind, RackChoice};
use loads::marks::Mark;
use racks::plan::Numbers;
use scripting::script::{Command as BookCommand, FromLine};
use scripting::words::{Words, is};

// A command with its numbers.
#[derive(Clone, Copy)]
pub enum Command {
    Book(BookCommand),
    Rack(RackChoice),
    Placer(PlacerKind),
    Frame { input: u8, stamp: u64, mark: Mark },
    Filler(u16),
    // Without a number of places the list of departures is just long enough.
    Run { until: u64, places: Option<u32> },
}

fn read_rack(words: &mut Words) -> Option<Command>
    ensures { result ≡ rack_in words.old.rest.now }
{
    let kind = words.read()?;
    let bins = words.read()?;
    let depth = words.read()?;
    let total = words.read()?;
    let numbers = Numbers { bins, depth, total };
    words.end(Command::Rack(RackChoice { kind, numbers }))
}

fn read_frame(words: &mut Words) -> Option<Command>
    ensures { result ≡ frame_in words.old.rest.now }
{
    let input = words.read()?;
    let stamp = words.read()?;
    let stream = words.read()?;
    let length = words.read()?;
    let buffer = words.read()?;
    let mark = Mark::new(stream, length, buffer);
    words.end(Command::Frame { input, stamp, mark })
}

fn read_run(words: &mut Words) -> Option<Command>
    ensures { result ≡ run_in words.old.rest.now }
{
    let until = words.read()?;
    if words.has_ended() {
        return Some(Command::Run {
            until,
            places: None,
        });
    }
    let places = words.read()?;
    words.end(Command::Run {
        until,
        places: Some(places),
    })
}

impl FromLine for Command {
    ghost in_line = { command_in };

    fn from_line(word: &[u8], words: &mut Words) -> Option<Command> {
        if is(word, b"rack") {
            read_rack(words)
        } else if is(word, b"placer") {
            words.last().map(Command::Placer)
        } else if is(word, b"frame") {
            read_frame(words)
        } else if is(word, b"filler") {
            words.last().map(Command::Filler)
        } else if is(word, b"run") {
            read_run(words)
        } else {
            BookCommand::from_line(word, words).map(Command::Book)
        }
    }
}
