// Reads a script from standard input, makes the calls that it names on a book, and prints what each answered.
#![tactic(auto)]

use scripting::answers::Done;
use scripting::bench::Bench;
use scripting::printing::{Page, Shown};
use scripting::script;
use scripting::script::{Command, NotUnderstood};
use std::alloc::Global;
use std::io;
use std::io::{BufRead, BufReader, BufWriter, Stdin, Stdout};

// Carries one line out, and prints what it answers.
fn run_line(
    bench: &mut Bench,
    page: &mut Page<BufWriter<Stdout>>,
    line: &[u8],
) -> Result<(), NotUnderstood> {
    let Some(command) = script::parse::<Command>(line)? else {
        return Ok(());
    };
    match bench.carry_out(command) {
        Ok(Done::Set { dropped }) => {
            page.dropped(&dropped);
            page.line(line, Done::Set { dropped });
        }
        Ok(Done::Shown) => page.line(line, Shown(bench.book())),
        Ok(done) => page.line(line, done),
        Err(refusal) => page.line(line, refusal),
    }
    Ok(())
}

// Runs a script to its end, and answers whether every line was understood. The other program reads as this one, but what
// carries its lines out changes on the way.
fn run(
    heap: Global,
    input: Stdin,
    bench: &mut Bench,
    page: &mut Page<BufWriter<Stdout>>,
) -> io::Result<bool> {
    let mut input = BufReader::new(heap, input)?;
    let mut line = Vec::new(heap);
    let mut understood = true;
    // A loop that reads counts its turns, since every loop has a bound.
    for _ in 0..u64::MAX {
        line.clear();
        if input.read_until(b'\n', &mut line)? == 0 || page.has_failed() {
            break;
        }
        let line = line.as_slice();
        let line = line.strip_suffix(b"\n").unwrap_or(line);
        if let Err(error) = run_line(bench, page, line) {
            page.line(line, error);
            understood = false;
        }
    }
    Ok(understood)
}

fn main(rt: HostRuntime) -> io::Result<()> {
    let mut page = Page::over(BufWriter::new(rt.alloc(), rt.stdout())?);
    let mut bench = Bench::new(rt.alloc())?;
    let ran = run(rt.alloc(), rt.stdin(), &mut bench, &mut page);
    // Whatever came, the notes in hand are dropped, and what was printed is written.
    page.dropped(&bench.close());
    page.end()?;
    if ran? {
        Ok(())
    } else {
        Err(io::Error::from(io::ErrorKind::InvalidInput))
    }
}
