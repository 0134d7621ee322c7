// What the program prints that a book alone does not answer.
use crate::answers::{Done, Refusal};
use loads::Load;
use loads::marks::Mark;
use schedule::departures::Departure;
use schedule::faults::{Layer, PortFault};
use scripting::script::NotUnderstood;
use std::fmt;

// The departures of a run. Each line of one begins with its line break, since the last has one after the answer.
#[derive(Clone, Copy, Drop)]
pub(crate) struct Departures<'a>(pub(crate) &'a [Departure<Mark>]);

impl fmt::Display for Done {
    fn fmt<W: fmt::Write>(&self, f: &mut fmt::Formatter<W>) -> fmt::Result {
        match self {
            Done::Book(done) => done.fmt(f),
            Done::SetPort(_) => f.write_str("set"),
            Done::Cycle(cycle) => write!(f, "cycle {cycle}"),
            Done::TakenUntil(tick) => write!(f, "wire taken until {tick}"),
        }
    }
}

fn write_port<W: fmt::Write>(f: &mut fmt::Formatter<W>, fault: &PortFault) -> fmt::Result {
    let layer = match fault.layer() {
        Layer::Port => "port",
        Layer::Placer => "placer",
    };
    write!(f, "refused {} {layer}", fault.number())
}

impl fmt::Display for Refusal {
    fn fmt<W: fmt::Write>(&self, f: &mut fmt::Formatter<W>) -> fmt::Result {
        match self {
            Refusal::Book(refusal) => refusal.fmt(f),
            Refusal::Rack(fault) => write!(f, "refused {} rack", fault.number()),
            Refusal::Port(fault) => write_port(f, fault),
            Refusal::PortRuns => f.write_str("a port runs"),
            Refusal::NotUnderstood => NotUnderstood.fmt(f),
            Refusal::NoPort => f.write_str("no port"),
            Refusal::NoMemory => f.write_str("no memory"),
        }
    }
}

fn write_departure<W: fmt::Write>(
    f: &mut fmt::Formatter<W>,
    departure: &Departure<Mark>,
) -> fmt::Result {
    write!(
        f,
        "\n  stream {} class {}",
        departure.stream, departure.class
    )?;
    write!(f, " cycle {} start {}", departure.cycle, departure.start)?;
    let load = departure.load;
    write!(f, " length {} buffer {}", load.length(), load.buffer())
}

impl<'a> fmt::Display for Departures<'a> {
    fn fmt<W: fmt::Write>(&self, f: &mut fmt::Formatter<W>) -> fmt::Result {
        write!(f, "{} departures", self.0.len())?;
        for departure in self.0 {
            write_departure(f, departure)?;
        }
        Ok(())
    }
}
