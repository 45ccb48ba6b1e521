ghost use Rattle.std.specs.Prelude.{◌≡◌, ℕ, ◌<◌, ◌+◌, IfOk, OnOk, Option, Some, None, length, slice_get, slice_set};
ghost use Rattle.std.specs.List.Sorted.{IsPermutation};
ghost use Rattle.cx_scene.specs.Scene.{Scene};
ghost use Rattle.cx_history.specs.Histories.{Recorded};
ghost use Rattle.cx_order.specs.Order.{IsOrderOf};
ghost use Rattle.cx_races.specs.declared.access.Access.{Access as AccessSeen};
ghost use Rattle.cx_races.specs.declared.reporting.Pair.{Pair as PairSeen};
ghost use Rattle.cx_races.specs.Races.{IsPartner, IsReport, AreAccesses, SaysSoFar, is_open};

use crate::access::Access;
use crate::racing::{access_at, race};
use crate::sheet::Sheet;
use cx_names::NoMemory;
use cx_order::Order;
use std::alloc::Global;

/// Two accesses by their numbers, the lesser first.
#[derive(Clone, Copy)]
pub struct Pair {
    pub first: u32,
    pub second: u32,
}

/// The least number of an access behind access `i` that races with it.
fn partner(order: &Order, accesses: &[Access], i: usize) -> Option<usize>
    requires { i < length accesses.now }
    ensures { (s : Scene) (r : Recorded) (a : AccessSeen) → IsOrderOf s r order.now → AreAccesses r accesses.now → slice_get accesses.now i ≡ Some a → IsPartner s r accesses.now a.var i result }
{
    let a = access_at(accesses, i);
    for j in i + 1..accesses.len() {
        let b = access_at(accesses, j);
        let races = race(order, a, b);
        if races {
            return Some(j);
        }
    }
    None
}

/// The same, by way of the sheet of all accesses, which tells of most that are free without trying each.
fn partner_of(order: &Order, sheet: &Sheet, accesses: &[Access], i: usize) -> Option<usize>
    requires there { i < length accesses.now }
    requires sheet { IsPermutation accesses.now sheet.now.accesses.items }
    ensures { (s : Scene) (r : Recorded) (a : AccessSeen) → IsOrderOf s r order.now → AreAccesses r accesses.now → slice_get accesses.now i ≡ Some a → IsPartner s r accesses.now a.var i result }
{
    let free = sheet.is_free(order, access_at(accesses, i));
    if free {
        None
    } else {
        partner(order, accesses, i)
    }
}

/// The number as one of 32 bits; more accesses don't fit any memory.
fn number(i: usize) -> Result<u32, NoMemory>
    ensures { IfOk result (λ n. n ≡ i) }
{
    u32::try_from(i).ok().ok_or(NoMemory)
}

/// Two numbers as a pair.
fn pair_of(first: usize, second: usize) -> Result<Pair, NoMemory>
    ensures { IfOk result (λ p. (p.first ≡ first) × (p.second ≡ second)) }
{
    let first = number(first)?;
    let second = number(second)?;
    Ok(Pair { first, second })
}

/// Whether a variable has an entry without a pair.
fn is_open(entries: &Vec<Option<Pair>>, var: u32) -> bool
    ensures { result ≡ is_open (slice_get entries.now.items var) }
{
    matches!(entries.get(var as usize), Some(None))
}

/// An entry without a pair for each of so many variables.
fn no_pairs(alloc: Global, variables: u32) -> Result<Vec<Option<Pair>>, NoMemory>
    ensures count { IfOk result (λ v. length v.items ≡ variables) }
    ensures none { IfOk result (λ v. (k : ℕ) (e : Option PairSeen) → slice_get v.items k ≡ Some e → e ≡ None) }
{
    let mut entries = Vec::new(alloc);
    for _variable in 0..variables {
        entries.push(None)?;
    }
    Ok(entries)
}

/// Puts a pair into the entry of a variable.
fn put_entry(entries: &mut Vec<Option<Pair>>, var: u32, pair: Pair)
    requires { var < length entries.old.items }
    ensures { entries.new.items ≡ slice_set entries.old.items var (Some pair) }
{
    entries[var as usize] = Some(pair);
}

/// Puts the pair of access `i` and its least partner into the entry of its variable, where that has none and there is one.
fn put_pair(
    order: &Order,
    sheet: &Sheet,
    accesses: &[Access],
    i: usize,
    entries: &mut Vec<Option<Pair>>,
) -> Result<(), NoMemory>
    requires there { i < length accesses.now }
    requires sheet { IsPermutation accesses.now sheet.now.accesses.items }
    ensures count { OnOk result (length entries.new.items ≡ length entries.old.items) }
    ensures says { OnOk result ((s : Scene) (r : Recorded) → IsOrderOf s r order.now → AreAccesses r accesses.now → SaysSoFar s r accesses.now i entries.old.items → SaysSoFar s r accesses.now (i + 1) entries.new.items) }
{
    let a = access_at(accesses, i);
    let empty = is_open(entries, a.var);
    if !empty {
        return Ok(());
    }
    let found = partner_of(order, sheet, accesses, i);
    match found {
        None => Ok(()),
        Some(j) => {
            let pair = pair_of(i, j)?;
            put_entry(entries, a.var, pair);
            Ok(())
        }
    }
}

/// Says for each of so many variables whether two accesses to it race: none, or the least pair, by the smaller number and then the greater.
///
/// Of an access it asks each thread that takes part in the variable by two searches in the sorted accesses of all; only one that has a partner is tried
/// with each other. So for n accesses it takes time n log n for each thread that takes part in a variable, and n for each variable that has a race.
///
/// Errors: no memory.
pub fn report(
    alloc: Global,
    order: &Order,
    accesses: &[Access],
    variables: u32,
) -> Result<Vec<Option<Pair>>, NoMemory>
    ensures { IfOk result (λ v. (s : Scene) (r : Recorded) → IsOrderOf s r order.now → AreAccesses r accesses.now → IsReport s r accesses.now variables v.items) }
{
    let sheet = Sheet::of(alloc, accesses)?;
    let mut entries = no_pairs(alloc, variables)?;
    for i in 0..accesses.len() {
        put_pair(order, &sheet, accesses, i, &mut entries)?;
    }
    Ok(entries)
}
