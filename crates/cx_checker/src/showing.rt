ghost use Rattle.std.specs.Prelude.{◌≡◌, ℕ, ◌<◌, ◌==◌, ◌&&◌, ◌||◌, true, false, length, map, slice_get, Some, None, IfOk, if◌then◌else◌};
ghost use Rattle.cx_machine.specs.declared.kind.Look.{Look as AnyLook};
ghost use Rattle.cx_machine.specs.Machine.{opening, shows};
ghost use Rattle.cx_machine.specs.Words.{has};
ghost use Rattle.cx_history.specs.Histories.{in_order};
ghost use Rattle.cx_history.specs.Flaw.{gap_from, bad_step_from};
ghost use Rattle.cx_checker.specs.Views.{placed_of};
ghost use Rattle.cx_checker.specs.Placing.{IsPlacing};
ghost use Rattle.cx_checker.specs.Marks.{marked};
ghost use Rattle.cx_checker.specs.Looks.{AreVerdicts};
ghost use Rattle.cx_checker.specs.Buckets.{bucket_at};

use crate::by_object::{Change, number};
use crate::placing::{Slot, only_at};
use cx_machine::{Kind, Look, State};
use cx_names::NoMemory;
use std::alloc::Global;

/// The indexes of the looks of one stamp.
#[derive(Drop)]
pub struct Bucket {
    pub indexes: Vec<u32>,
}

/// The look of this index.
fn look_at(looks: &[Look], j: usize) -> Look
    requires { j < length looks.now }
    ensures { slice_get looks.now j ≡ Some result }
{
    looks[j]
}

/// Puts the index of a look of stamp `at`, if there is a bucket for it.
fn put_index(buckets: &mut Vec<Bucket>, at: u32, j: u32) -> Result<(), NoMemory>
    ensures count { IfOk result (λ _. length buckets.new.items ≡ length buckets.old.items) }
    ensures put { IfOk result (λ _. (k i : ℕ) → k < length buckets.old.items → has (bucket_at buckets.new.items k) i ≡ (has (bucket_at buckets.old.items k) i || ((at == k) && (j == i)))) }
{
    let k = at as usize;
    if k < buckets.len() {
        buckets[k].indexes.push(j)?;
    }
    Ok(())
}

/// So many empty buckets.
fn empty(alloc: Global, stamps: usize) -> Result<Vec<Bucket>, NoMemory>
    ensures { IfOk result (λ v. length v.items ≡ stamps) }
{
    let mut buckets = Vec::new(alloc);
    for _stamp in 0..stamps {
        buckets.push(Bucket {
            indexes: Vec::new(alloc),
        })?;
    }
    Ok(buckets)
}

/// The looks by their stamps, those below this number.
fn by_stamp(alloc: Global, stamps: usize, looks: &[Look]) -> Result<Vec<Bucket>, NoMemory>
    ensures count { IfOk result (λ v. length v.items ≡ stamps) }
    ensures all { IfOk result (λ v. (i : ℕ) (l : AnyLook) → slice_get looks.now i ≡ Some l → l.at < stamps → has (bucket_at v.items l.at) i ≡ true) }
{
    let mut buckets = empty(alloc, stamps)?;
    for j in 0..looks.len() {
        let look = look_at(looks, j);
        let n = number(j)?;
        put_index(&mut buckets, look.at, n)?;
    }
    Ok(buckets)
}

/// No verdict yet on so many looks.
fn all_false(alloc: Global, looks: usize) -> Result<Vec<bool>, NoMemory>
    ensures count { IfOk result (λ v. length v.items ≡ looks) }
    ensures none { IfOk result (λ v. (i : ℕ) → marked v.items i ≡ false) }
{
    let mut verdicts = Vec::new(alloc);
    for _look in 0..looks {
        verdicts.push(false)?;
    }
    Ok(verdicts)
}

/// Whether the look has this stamp.
fn has_stamp(look: &Look, k: usize) -> bool
    ensures { result ≡ (look.now.at == k) }
{
    look.at as usize == k
}

/// Sets the verdict on the look of index `j`, where its stamp is `k`.
fn show_one(state: &State, looks: &[Look], k: usize, j: u32, verdicts: &mut Vec<bool>)
    requires { length verdicts.old.items ≡ length looks.now }
    ensures count { length verdicts.new.items ≡ length verdicts.old.items }
    ensures set { (i : ℕ) (l : AnyLook) → slice_get looks.now i ≡ Some l → marked verdicts.new.items i ≡ (if (j == i) && (l.at == k) then shows state.now l else marked verdicts.old.items i) }
{
    let n = j as usize;
    if n < looks.len() {
        let look = look_at(looks, n);
        let stamped = has_stamp(&look, k);
        if stamped {
            verdicts[n] = state.shows(&look);
        }
    }
}

/// Sets the verdicts on the looks of these indexes whose stamp is `k`.
fn show_all(state: &State, looks: &[Look], k: usize, bucket: &[u32], verdicts: &mut Vec<bool>)
    requires { length verdicts.old.items ≡ length looks.now }
    ensures count { length verdicts.new.items ≡ length verdicts.old.items }
    ensures set { (i : ℕ) (l : AnyLook) → slice_get looks.now i ≡ Some l → marked verdicts.new.items i ≡ (if has bucket.now i && (l.at == k) then shows state.now l else marked verdicts.old.items i) }
{
    for b in 0..bucket.len() {
        let j = index_at(bucket, b);
        show_one(state, looks, k, j, verdicts);
    }
}

/// An index of a bucket.
fn index_at(bucket: &[u32], b: usize) -> u32
    requires { b < length bucket.now }
    ensures { slice_get bucket.now b ≡ Some result }
{
    bucket[b]
}

/// The bucket of a stamp.
fn bucket_of(buckets: &[Bucket], k: usize) -> &[u32]
    requires { k < length buckets.now }
    ensures { result.now ≡ bucket_at buckets.now k }
{
    buckets[k].indexes.as_slice()
}

/// The verdicts on looks at an object of this kind, whose changes have no gap and are allowed.
pub fn verdicts_on(
    alloc: Global,
    kind: Kind,
    changes: &[Change],
    slots: &[Slot],
    looks: &[Look],
) -> Result<Vec<bool>, NoMemory>
    requires placed { IsPlacing (map placed_of changes.now) slots.now }
    requires gapless { gap_from 0 (in_order (map placed_of changes.now)) ≡ None }
    requires stepwise { bad_step_from (opening kind) (in_order (map placed_of changes.now)) ≡ None }
    ensures { IfOk result (λ v. AreVerdicts kind (map placed_of changes.now) looks.now v.items) }
{
    let stamps = changes.len() + 1;
    let buckets = by_stamp(alloc, stamps, looks)?;
    let mut verdicts = all_false(alloc, looks.len())?;
    let mut state = State::opening(alloc, kind)?;
    for k in 0..changes.len() {
        let bucket = bucket_of(&buckets, k);
        show_all(&state, looks, k, bucket, &mut verdicts);
        match only_at(changes, slots, k) {
            None => return Ok(verdicts),
            Some(change) => {
                let made = state.apply(&change.entry)?;
                if !made {
                    return Ok(verdicts);
                }
            }
        }
    }
    let last = changes.len();
    let bucket = bucket_of(&buckets, last);
    show_all(&state, looks, last, bucket, &mut verdicts);
    Ok(verdicts)
}
