// The tests of book, loads, racks and placers, as tables of cases. Each refusal stands beside the nearest call that is accepted.
mod books;
mod naive;
mod of_placers;
mod of_racks;
mod sets;
