// The load of a module: the frame's octets stay in a buffer, and the mark names it.
ghost use Rattle.std.specs.Prelude.{◌≡◌};
ghost use Rattle.loads.specs.Marked.{mark_of};

use crate::Load;

#[derive(Clone, Copy, PartialEq, Eq, Debug)]
pub struct Mark {
    stream: u8,
    length: u16,
    buffer: u32,
}

impl Mark {
    pub fn new(stream: u8, length: u16, buffer: u32) -> Mark
        ensures { result ≡ mark_of stream length buffer }
    {
        Mark {
            stream,
            length,
            buffer,
        }
    }

    // The number of the buffer that holds the frame.
    pub fn buffer(&self) -> u32
        ensures { result ≡ self.now.buffer }
    {
        self.buffer
    }
}

impl Load for Mark {
    ghost stream_of = { λ m. m.stream };

    ghost length_of = { λ m. m.length };

    fn stream(&self) -> u8 {
        self.stream
    }

    fn length(&self) -> u16 {
        self.length
    }
}
