// What is kept of the streams: a table with a row for each, and the record that both rules keep.
ghost use Rattle.std.specs.Prelude.{◌≡◌, ℕ, if◌then◌else◌, Some, None, unwrap_or, length, nat_lt};

use book::rows::STREAMS;

mod records;

// The record of one stream: the last cycle given, and the octets given there. A new one has no cycle and no octets.
#[derive(Clone, Copy, PartialEq, Eq, Debug, Default)]
pub struct Latest {
    pub(crate) cycle: u64,
    pub(crate) octets: u32,
}

// A row for each of the streams 0 to 127.
#[derive(Clone, Copy)]
pub struct Table<T> {
    rows: [T; STREAMS],
}

impl<T: Copy> Table<T> {
    ghost use Rattle.placers.specs.Placers.{replaced};
    ghost use Rattle.placers.specs.Tables.{row_in};

    // The same row for every stream.
    pub fn of(row: T) -> Table<T>
        ensures full { length result.rows ≡ 128 }
        ensures rows { (s : ℕ) → row_in row result s ≡ row }
    {
        Table {
            rows: [row; STREAMS],
        }
    }

    // The row of a stream that is there.
    pub fn read(&self, stream: u8) -> Option<T>
        ensures row { (d : T) → result ≡ (if nat_lt 127 stream then None else Some (row_in d self.now stream)) }
        ensures or { (d : T) → unwrap_or result d ≡ row_in d self.now stream }
    {
        self.rows.get(usize::from(stream)).copied()
    }

    // A stream that is not there has no row to write.
    pub fn write(&mut self, stream: u8, row: T)
        ensures { (d : T) → row_in d self.new ≡ (if nat_lt 127 stream then row_in d self.old else replaced (row_in d self.old) stream row) }
    {
        // Through `get_mut` a proof learns nothing of what was written.
        let at = usize::from(stream);
        if at < self.rows.len() {
            self.rows[at] = row;
        }
    }
}
