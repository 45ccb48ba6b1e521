ghost use Rattle.std.specs.Prelude.{◌≡◌, ℕ, ◌<◌, ◌+◌, length, filter, map, slice_get, Some, None, option_map, IfOk};
ghost use Rattle.cx_machine.specs.Machine.{opening};
ghost use Rattle.cx_history.specs.Histories.{in_order, is_at};
ghost use Rattle.cx_history.specs.Flaw.{gap_from, bad_step_from};
ghost use Rattle.cx_checker.specs.Views.{placed_of};
ghost use Rattle.cx_checker.specs.Marks.{AreCompletions};
ghost use Rattle.cx_checker.specs.declared.placing.Slot.{Slot};
ghost use Rattle.cx_checker.specs.declared.placing.Slot.TheVariants as slots;
ghost use Rattle.cx_checker.specs.Placing.{is_from, sooner, or_change, with_one, put_slot, IsOnly, IsPlacing};

use crate::by_object::{Change, number};
use cx_machine::{Kind, State};
use cx_names::NoMemory;
use std::alloc::Global;

/// Which change holds a position: none, one by its index, or more.
#[derive(Clone, Copy)]
pub enum Slot {
    Free,
    Once(u32),
    Twice,
}

/// The slot with one more change.
fn with_one(slot: Slot, index: u32) -> Slot
    ensures { result ≡ with_one slot index }
{
    match slot {
        Slot::Free => Slot::Once(index),
        _ => Slot::Twice,
    }
}

/// So many free slots.
fn free(alloc: Global, count: usize) -> Result<Vec<Slot>, NoMemory>
    ensures count { IfOk result (λ v. length v.items ≡ count) }
    ensures free { IfOk result (λ v. (k : ℕ) (slot : Slot) → slice_get v.items k ≡ Some slot → slot ≡ slots.Free) }
{
    let mut slots = Vec::new(alloc);
    for _free in 0..count {
        slots.push(Slot::Free)?;
    }
    Ok(slots)
}

/// The slot of this position.
fn slot_at(slots: &[Slot], k: usize) -> Slot
    requires { k < length slots.now }
    ensures { slice_get slots.now k ≡ Some result }
{
    slots[k]
}

/// The change of this index.
fn change_at(changes: &[Change], i: usize) -> Change
    requires { i < length changes.now }
    ensures { slice_get (map placed_of changes.now) i ≡ Some (placed_of result) }
{
    changes[i]
}

/// The change of this index, if there is one.
fn found(changes: &[Change], i: u32) -> Option<Change>
    ensures { option_map placed_of result ≡ slice_get (map placed_of changes.now) i }
{
    changes.get(i as usize).copied()
}

/// Puts a change of this index into the slot of its position, if there is one.
fn put(slots: &mut Vec<Slot>, position: usize, index: u32)
    ensures { slots.new.items ≡ put_slot slots.old.items position index }
{
    if position < slots.len() {
        let old = slot_at(slots, position);
        slots[position] = with_one(old, index);
    }
}

/// A slot for each of these changes.
pub fn place(alloc: Global, changes: &[Change]) -> Result<Vec<Slot>, NoMemory>
    ensures { IfOk result (λ v. IsPlacing (map placed_of changes.now) v.items) }
{
    let mut slots = free(alloc, changes.len())?;
    for i in 0..changes.len() {
        let index = number(i)?;
        let change = change_at(changes, i);
        put(&mut slots, change.position as usize, index);
    }
    Ok(slots)
}

/// Whether the change holds the position.
fn is_at(change: Change, k: usize) -> bool
    ensures { result ≡ is_at k (placed_of change) }
{
    change.position as usize == k
}

/// Whether the change holds a position from `k` on.
fn is_from(change: Change, k: usize) -> bool
    ensures { result ≡ is_from k (placed_of change) }
{
    k <= change.position as usize
}

/// The one of lower position, `c` where both have the same.
fn sooner(c: Change, other: Option<Change>) -> Change
    ensures { placed_of result ≡ sooner (placed_of c) (option_map placed_of other) }
{
    match other {
        None => c,
        Some(d) => { if c.position <= d.position { c } else { d } }
    }
}

/// The change at a position that exactly one holds.
pub fn only_at(changes: &[Change], slots: &[Slot], k: usize) -> Option<Change>
    requires low { k < length changes.now }
    requires placed { IsPlacing (map placed_of changes.now) slots.now }
    ensures { IsOnly (option_map placed_of result) (filter (is_at k) (map placed_of changes.now)) }
{
    match slot_at(slots, k) {
        Slot::Once(i) => found(changes, i),
        Slot::Free => None,
        Slot::Twice => None,
    }
}

/// The second change that holds the position.
fn second_at(changes: &[Change], k: usize) -> Option<Change>
    ensures { option_map placed_of result ≡ slice_get (filter (is_at k) (map placed_of changes.now)) 1 }
{
    let mut has_one = false;
    for i in 0..changes.len() {
        let change = change_at(changes, i);
        let here = is_at(change, k);
        if here {
            if has_one {
                return Some(change);
            }
            has_one = true;
        }
    }
    None
}

/// The first change of the least position from `k` on.
fn first_from(changes: &[Change], k: usize) -> Option<Change>
    ensures { option_map placed_of result ≡ slice_get (in_order (filter (is_from k) (map placed_of changes.now))) 0 }
{
    let mut first = None;
    let mut i = changes.len();
    while i > 0 {
        i -= 1;
        let change = change_at(changes, i);
        let from = is_from(change, k);
        if from {
            first = Some(sooner(change, first));
        }
    }
    first
}

/// The first change that stands wrongly where not exactly one holds position `k`.
fn gap_at(changes: &[Change], k: usize) -> Option<Change>
    requires { k < length changes.now }
    ensures { option_map placed_of result ≡ or_change (slice_get (filter (is_at k) (map placed_of changes.now)) 1) (slice_get (in_order (filter (is_from (k + 1)) (map placed_of changes.now))) 0) }
{
    let second = second_at(changes, k);
    match second {
        Some(change) => Some(change),
        None => first_from(changes, k + 1),
    }
}

/// The change at which the positions aren't those from 0 on: the second holder of one that is held
/// twice, or the first of the next position after one that is missing.
pub fn gap(changes: &[Change], slots: &[Slot]) -> Option<Change>
    requires { IsPlacing (map placed_of changes.now) slots.now }
    ensures { option_map placed_of result ≡ gap_from 0 (in_order (map placed_of changes.now)) }
{
    for k in 0..changes.len() {
        match only_at(changes, slots, k) {
            Some(_only) => {}
            None => return gap_at(changes, k),
        }
    }
    None
}

/// The first change that the machine of this kind doesn't allow, where there is no gap.
pub fn bad_step(
    alloc: Global,
    kind: Kind,
    changes: &[Change],
    slots: &[Slot],
) -> Result<Option<Change>, NoMemory>
    requires placed { IsPlacing (map placed_of changes.now) slots.now }
    requires gapless { gap_from 0 (in_order (map placed_of changes.now)) ≡ None }
    ensures { IfOk result (λ c. option_map placed_of c ≡ bad_step_from (opening kind) (in_order (map placed_of changes.now))) }
{
    let mut state = State::opening(alloc, kind)?;
    for k in 0..changes.len() {
        match only_at(changes, slots, k) {
            None => return Ok(None),
            Some(change) => {
                let made = state.apply(&change.entry)?;
                if !made {
                    return Ok(Some(change));
                }
            }
        }
    }
    Ok(None)
}

/// For each position from 0 on whether the change there leaves a barrier completing, up to the
/// first that isn't held once or that the machine doesn't allow.
pub fn completions(
    alloc: Global,
    kind: Kind,
    changes: &[Change],
    slots: &[Slot],
) -> Result<Vec<bool>, NoMemory>
    requires { IsPlacing (map placed_of changes.now) slots.now }
    ensures { IfOk result (λ v. AreCompletions (opening kind) (map placed_of changes.now) v.items) }
{
    let mut state = State::opening(alloc, kind)?;
    let mut marks = Vec::new(alloc);
    for k in 0..changes.len() {
        match only_at(changes, slots, k) {
            None => return Ok(marks),
            Some(change) => {
                let made = state.apply(&change.entry)?;
                if !made {
                    return Ok(marks);
                }
                let mark = state.is_completing();
                marks.push(mark)?;
            }
        }
    }
    Ok(marks)
}
