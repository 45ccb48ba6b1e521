ghost use Rattle.std.specs.Prelude.{◌≡◌, ℕ, IfOk};
ghost use Rattle.std.specs.List.Sorted.{IsNonDecreasingBy};
ghost use Rattle.cx_graph.specs.Tally.{count_below};

use cx_names::NoMemory;

/// Numbers, and how many of them are below a bound.
#[derive(Drop)]
pub struct Tally {
    pub sorted: Vec<u128>,

    ghost rising: { IsNonDecreasingBy (λ n. n) sorted.items },
}

impl Tally {
    /// A tally of these numbers.
    ///
    /// Errors: no memory to sort them.
    pub fn of(numbers: Vec<u128>) -> Result<Tally, NoMemory>
        ensures { IfOk result (λ t. (bound : ℕ) → count_below bound t.sorted.items ≡ count_below bound numbers.items) }
    {
        let mut sorted = numbers;
        sorted.sort_by_key(|n| *n)?;
        Ok(Tally { sorted })
    }

    /// How many of the numbers are below this one.
    pub fn below(&self, bound: u128) -> usize
        ensures { result ≡ count_below bound self.now.sorted.items }
    {
        self.sorted.partition_point(|n| *n < bound)
    }
}
