// The lines of a script.
use std::alloc::Global;
use std::io;
use std::io::{BufRead, BufReader, Stdin};

// The line that was read last. After a reading that fails there are no more lines; the end tells of it, since what is in hand
// has to be given back first.
#[derive(Drop)]
pub(crate) struct Lines {
    input: BufReader<Stdin>,
    line: Vec<u8>,
    read: io::Result<()>,
    understood: bool,
}

impl Lines {
    pub(crate) fn new(heap: Global, input: Stdin) -> io::Result<Lines> {
        Ok(Lines {
            input: BufReader::new(heap, input)?,
            line: Vec::new(heap),
            read: Ok(()),
            understood: true,
        })
    }

    // Reads the next line, and answers whether there is one.
    pub(crate) fn read_next(&mut self) -> bool {
        self.line.clear();
        match self.input.read_until(b'\n', &mut self.line) {
            Ok(count) => count > 0,
            Err(error) => {
                self.read = Err(error);
                false
            }
        }
    }

    // The line without its line break.
    pub(crate) fn line(&self) -> &[u8] {
        let line = self.line.as_slice();
        line.strip_suffix(b"\n").unwrap_or(line)
    }

    // The line was not understood.
    pub(crate) fn doubt(&mut self) {
        self.understood = false;
    }

    // Whether every line was understood.
    pub(crate) fn end(self) -> io::Result<bool> {
        let Lines {
            input: _,
            line: _,
            read,
            understood,
        } = self;
        read?;
        Ok(understood)
    }
}
