// The tests of port, line and what the programs share, as tables of cases. Each refusal stands beside the nearest call that is accepted.
mod lines;
mod ports;
mod programs;
