// The worked examples with those of a module, as one table with one proof; and the tests of port, line and what the programs share,
// since tests in those crates would prove them a second time.
#![tactic(auto)]

ghost use Rattle.std.specs.Prelude.{◌≡◌, length};
ghost use Rattle.port_examples.specs.Worked.{table, Worked};

#[cfg(test)]
mod tests;

// The rules give each worked example its result.
fn compute()
    ensures { Worked }
{}

// How many worked examples there are. The rules give each its result.
pub fn worked_examples() -> u8
    ensures count { result ≡ length table }
    ensures worked { Worked }
{
    compute();
    31
}
