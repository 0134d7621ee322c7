// Reads a script from standard input, makes the calls that it names on a book or a port, and prints what each answered.
#![tactic(auto)]

use crate::bench::Bench;
use crate::lines::Lines;
use crate::serving::Session;
use scripting::printing::Page;
use std::io;
use std::io::BufWriter;

mod answers;
mod bench;
mod desk;
mod kinds;
mod lines;
mod printing;
mod ready;
mod script;
mod serving;

fn main(rt: HostRuntime) -> io::Result<()> {
    let lines = Lines::new(rt.alloc(), rt.stdin())?;
    let page = Page::over(BufWriter::new(rt.alloc(), rt.stdout())?);
    let bench = Bench::new(rt.alloc())?;
    let mut session = Session {
        heap: rt.alloc(),
        bench,
        lines,
        page,
    };
    session.run();
    let Session {
        heap: _,
        bench,
        lines,
        mut page,
    } = session;
    // Whatever came, the notes in hand are dropped, and what was printed is written.
    page.dropped(&bench.close());
    page.end()?;
    if lines.end()? {
        Ok(())
    } else {
        Err(io::Error::from(io::ErrorKind::InvalidInput))
    }
}
