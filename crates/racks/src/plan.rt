// What a rack is told when it is made, checked once and then carried in a type.
ghost use Rattle.std.specs.Prelude.{◌≡◌, ◌*◌, ◌≤◌};

mod check;

pub use self::check::{check_cells, check_rows};

// How many bins a rack has, the most loads in one of them, and the most in all.
#[derive(Clone, Copy)]
pub struct Numbers {
    pub bins: u32,
    pub depth: u32,
    pub total: u32,
}

// The numbers of a rack, within their limits.
#[derive(Clone, Copy)]
pub struct Plan {
    pub(crate) numbers: Numbers,
    ghost some_bins: { 1 ≤ numbers.bins },
    ghost few_bins: { numbers.bins ≤ 32 },
    ghost some_depth: { 1 ≤ numbers.depth },
    ghost low_depth: { numbers.depth ≤ 1048576 },
    ghost some_total: { 1 ≤ numbers.total },
    ghost low_total: { numbers.total ≤ 1048576 },
}

impl Plan {
    // Depth places for each bin.
    pub(crate) fn row_places(&self) -> u32
        ensures { result ≡ self.now.numbers.bins * self.now.numbers.depth }
    {
        self.numbers.bins * self.numbers.depth
    }
}
