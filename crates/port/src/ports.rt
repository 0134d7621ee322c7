// A port: one output link of a module, with the streams booked on it and the loads that wait for it.
use book::ledger::Book;
use placers::table::Table;

mod booked;
mod booking;
mod framing;
mod making;
mod reading;
mod sending;

// Its settings are its book's. It holds the tick from which on the wire is free, and of each stream the last stamp accepted
// since its confirm, 0 before the first.
#[derive(Drop)]
pub struct Port<R, P> {
    book: Book,
    rack: R,
    placer: P,
    wire: u64,
    stamps: Table<u64>,
}
