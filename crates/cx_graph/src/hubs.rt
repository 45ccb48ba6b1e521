ghost use Rattle.std.specs.Prelude.{◌≡◌, ℕ, ◌<◌, ◌≤◌, ◌+◌, Option, Some, None, length, slice_get, IfOk};
ghost use Rattle.cx_graph.specs.declared.give.Give.{Give as GiveSeen};
ghost use Rattle.std.specs.List.{Contains};
ghost use Rattle.std.specs.List.Sorted.{IsNonDecreasingBy, IsPermutation};
ghost use Rattle.cx_graph.specs.Hubs.{rank_of, IsLast, LastIs};

use crate::give::{Give, group};
use cx_names::NoMemory;

/// What is given, in order of class, key and place.
#[derive(Drop)]
pub struct Hubs {
    pub gives: Vec<Give>,

    ghost rising: { IsNonDecreasingBy rank_of gives.items },
}

impl Hubs {
    /// The hubs of these gives.
    ///
    /// Errors: no memory to sort them.
    pub fn of(gives: Vec<Give>) -> Result<Hubs, NoMemory>
        ensures { IfOk result (λ h. IsPermutation gives.items h.gives.items) }
    {
        let mut sorted = gives;
        sorted.sort_by_key(|g| g.rank())?;
        Ok(Hubs { gives: sorted })
    }

    /// How many gives have a rank below this one.
    fn below(&self, rank: u128) -> usize
        ensures within { result ≤ length self.now.gives.items }
        ensures low { (k : ℕ) (g : GiveSeen) → k < result → slice_get self.now.gives.items k ≡ Some g → rank_of g < rank }
        ensures high { (k : ℕ) (g : GiveSeen) → result ≤ k → slice_get self.now.gives.items k ≡ Some g → rank ≤ rank_of g }
    {
        self.gives.partition_point(|g| g.rank() < rank)
    }

    /// The last give of a class and key whose place is below a bound, if any.
    pub fn last(&self, class: u64, key: u32, bound: u32) -> Option<usize>
        ensures { LastIs self.now.gives.items class key bound result }
    {
        let group = group(class, key);
        let count = self.below(group * 4_294_967_296 + bound as u128);
        if count == 0 {
            return None;
        }
        let last = self.gives[count - 1];
        if last.group() == group {
            Some(count - 1)
        } else {
            None
        }
    }
}
