//! Count-downs of latches.
ghost use Rattle.std.specs.Prelude.{◌≡◌, ◌+◌, ◌≤◌};
ghost use Rattle.cx_sync.specs.Sync.{IsLatchPass};

use crate::taken::{Taken, Want, begin, made_since};
use cx_names::NoMemory;
use cx_sync::{Latch, LatchPass};
use std::alloc::Global;
use std::sync::Wait;
use std::time::Clock;

// The count of each latch but the last.
const COUNT: u32 = 60_000;

/// Counts the latch down by one, `n` times.
pub fn count_down_often<R: Wait>(rt: &R, latch: &Latch, pass: &mut LatchPass, n: u32)
    requires pass { IsLatchPass latch.now pass.old }
    requires left { n ≤ pass.old.left }
    requires share { n ≤ pass.old.share }
    ensures idle { IsLatchPass latch.now pass.new }
    ensures made { pass.new.left + n ≡ pass.old.left }
    ensures share { pass.new.share + n ≡ pass.old.share }
{
    for done in 0..n {
        latch.count_down(rt, pass, 1);
    }
}

// A latch with this count is made, counted down to 0 one by one, and waited for.
fn one_latch<R: Wait>(rt: &R, alloc: Global, count: u32) -> Result<(), NoMemory>
    requires { count ≤ 60000 }
{
    let (latch, mut pass) = Latch::new(alloc, count, 1, count)?;
    count_down_often(rt, &latch, &mut pass, count);
    latch.wait(rt, &mut pass);
    Ok(())
}

/// One thread counts latches down by one, `n` times in all.
pub fn alone<R: Wait + Clock>(rt: &R, alloc: Global, n: u32) -> Result<Taken, Want> {
    let start = begin(rt)?;
    for _ in 0..n / COUNT {
        one_latch(rt, alloc, COUNT)?;
    }
    one_latch(rt, alloc, n % COUNT)?;
    made_since(rt, start, n)
}
