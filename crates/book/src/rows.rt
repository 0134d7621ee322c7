ghost use Rattle.std.specs.Prelude.{◌≡◌, ◌*◌, ◌≤◌, map};
ghost use Rattle.book.specs.Rows.{held_in, live_in, octets_in, octets, booked, fits, held_answer, holding, confirmed, dropped, released_answer, released, settled};
ghost use Rattle.book.specs.Sets.{numbers_of};

use crate::faults::BookFault;
use crate::frames;
use crate::setup::Settings;

// The streams of a book, numbered from 0.
pub const STREAMS: usize = 128;

pub const LAST_STREAM: u8 = 127;

// What a stream has reserved: its input, its class, its longest frame, and its wire octets per cycle of the class.
#[derive(Clone, Copy, PartialEq, Eq, Debug)]
pub struct Booking {
    pub input: u8,
    pub class: u8,
    pub longest: u16,
    pub quota: u32,
}

// The row of one stream. A leaving row is free from the start of the cycle that it names.
#[derive(Clone, Copy, PartialEq, Eq, Debug)]
pub enum Row {
    Free,
    Held(Booking),
    Live(Booking),
    Leaving(Booking, u64),
}

impl Booking {
    // A frame fits the limits of a length, and the quota holds the longest one on the wire.
    pub(crate) fn fits(&self) -> bool
        ensures { result ≡ fits self.now }
    {
        frames::SHORTEST <= self.longest
            && self.longest <= frames::LONGEST
            && frames::wire_octets(self.longest) <= self.quota
    }

    fn octets(&self, class: u8) -> u32
        ensures { result ≡ octets_in class self.now }
    {
        if self.class == class { self.quota } else { 0 }
    }
}

impl Row {
    // The booking of a row that is held.
    pub fn held(&self) -> Option<Booking>
        ensures { result ≡ held_in self.now }
    {
        match self {
            Row::Held(booking) => Some(*booking),
            _ => None,
        }
    }

    // The booking of a row that is live.
    pub fn live(&self) -> Option<Booking>
        ensures { result ≡ live_in self.now }
    {
        match self {
            Row::Live(booking) => Some(*booking),
            _ => None,
        }
    }

    // Each call changes the row from the one state that it starts from, and leaves it in every other. Settings and clock are told
    // apart, as the book has them: together they are no value of the rules.
    pub(crate) fn hold(&mut self, booking: Booking) -> Result<(), BookFault>
        ensures answer { result ≡ held_answer self.old }
        ensures next { self.new ≡ holding booking self.old }
    {
        match self {
            Row::Free => {
                *self = Row::Held(booking);
                Ok(())
            }
            _ => Err(BookFault::WrongState),
        }
    }

    pub(crate) fn confirm(&mut self)
        ensures { self.new ≡ confirmed self.old }
    {
        if let Row::Held(booking) = self {
            *self = Row::Live(*booking);
        }
    }

    pub(crate) fn drop_hold(&mut self)
        ensures { self.new ≡ dropped self.old }
    {
        if let Row::Held(_) = self {
            *self = Row::Free;
        }
    }

    // Answers the cycle from whose start on the row is free: as many cycles from now as its class has bins.
    pub(crate) fn release(&mut self, settings: &Settings, clock: u64) -> Result<u64, BookFault>
        requires { clock ≤ 1099511627775 }
        ensures answer { result ≡ released_answer (numbers_of settings.now) clock self.old }
        ensures next { self.new ≡ released (numbers_of settings.now) clock self.old }
    {
        match self {
            Row::Live(booking) => {
                let until = settings.cycle_at(booking.class, clock)
                    + u64::from(settings.bins(booking.class));
                *self = Row::Leaving(*booking, until);
                Ok(until)
            }
            _ => Err(BookFault::WrongState),
        }
    }

    // A cycle has started: a leaving row whose time has come is free.
    pub(crate) fn start_cycle(&mut self, settings: &Settings, clock: u64)
        ensures { self.new ≡ settled (numbers_of settings.now) clock self.old }
    {
        match self {
            Row::Leaving(booking, until) if *until <= settings.cycle_at(booking.class, clock) => {
                *self = Row::Free;
            }
            _ => {}
        }
    }

    fn octets(&self, class: u8) -> u32
        ensures { result ≡ octets class self.now }
    {
        match self {
            Row::Free => 0,
            Row::Held(booking) | Row::Live(booking) | Row::Leaving(booking, _) => booking.octets(
                class,
            ),
        }
    }
}

// The booked octets of a class: the sum of the quotas of its rows that are not free.
#[tactic(auto, unfolding(crate::specs::Rows::booked))]
pub(crate) fn booked(rows: &[Row; STREAMS], class: u8) -> u64
    ensures sum { result ≡ booked class rows.now }
    ensures bound { result ≤ 128 * 4294967295 }
{
    let mut sum: u64 = 0;
    for row in rows {
        sum += u64::from(row.octets(class));
    }
    sum
}

// Cycles have started up to this clock, for every row.
pub(crate) fn start_cycles(rows: &mut [Row; STREAMS], settings: &Settings, clock: u64)
    ensures { rows.new ≡ map (settled (numbers_of settings.now) clock) rows.old }
{
    for row in rows.iter_mut() {
        row.start_cycle(settings, clock);
    }
}
