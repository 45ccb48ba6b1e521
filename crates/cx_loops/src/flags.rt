//! Calls on a once flag.
ghost use Rattle.std.specs.Prelude.{◌≡◌, ◌≤◌};
ghost use Rattle.cx_sync.specs.Onces.{IsOncePass};

use crate::taken::{Taken, Want, begin, made_since};
use cx_sync::{Once3, OnceFlag, OncePass};
use std::alloc::Global;
use std::sync::Wait;
use std::time::Clock;

/// Calls once, `n` times. Returns how many calls were passive before one that was not.
pub fn call_often<R: Wait>(rt: &R, flag: &OnceFlag, pass: &mut OncePass, n: u32) -> u32
    requires pass { IsOncePass flag.now pass.old }
    requires left { 2 ≤ pass.old.left }
    ensures idle { IsOncePass flag.now pass.new }
    ensures within { result ≤ n }
    ensures passive { result ≡ n → pass.new.left ≡ pass.old.left }
{
    for i in 0..n {
        let Once3::Passive(_) = flag.call_once(rt, pass, || Ok(())) else {
            return i;
        };
    }
    n
}

/// One thread calls `n` times on a flag whose function has returned.
pub fn done<R: Wait + Clock>(rt: &R, alloc: Global, n: u32) -> Result<Taken, Want> {
    let (flag, mut pass) = OnceFlag::new(alloc, 1, 4)?;
    flag.call_once(rt, &mut pass, || Ok(()));
    let start = begin(rt)?;
    let made = call_often(rt, &flag, &mut pass, n);
    made_since(rt, start, made)
}
