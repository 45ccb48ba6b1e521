ghost use Rattle.std.specs.Prelude.{◌≡◌, ℕ, ◌<◌, length, slice_get, IfOk};
ghost use Rattle.cx_history.specs.declared.flaw.Cause.TheVariants as causes;
ghost use Rattle.cx_history.specs.Histories.{list_of, place_from, owed};
ghost use Rattle.cx_history.specs.Legal.{is_at_least};
ghost use Rattle.cx_history.specs.Flaw.{first_in, first_of_items};
ghost use Rattle.cx_history.specs.Views.{recorded_of};
ghost use Rattle.cx_checker.specs.declared.owing.Main.TheVariants.{Knows};
ghost use Rattle.cx_checker.specs.Knowledge.{place_in, AreEnds, IsMain};

use crate::by_object::{items, number};
use crate::falling::{flaw, item_at};
use crate::known::{Known, raise_to_start};
use crate::places::Places;
use cx_history::{Cause, Flaw, Record};
use cx_items::Item;
use cx_names::NoMemory;
use std::alloc::Global;

/// The first of main's items below what main owes, or what main knows at the end.
#[derive(Drop)]
pub enum Main {
    Owes(Flaw),
    Knows(Known),
}

/// The items of thread `t`.
pub fn list_at(record: &Record, t: usize) -> &[Item]
    requires { t < length record.now.lists.items }
    ensures { result.now ≡ list_of (recorded_of record.now) t }
{
    items(&record.lists[t])
}

/// What the thread of this list has seen at its end.
fn end_of(alloc: Global, list: &[Item]) -> Result<Places, NoMemory>
    ensures { IfOk result (λ p. (o : ℕ) → place_in p o ≡ place_from o 0 list.now) }
{
    let mut places = Places::new(alloc);
    for i in 0..list.len() {
        let item = item_at(list, i);
        places.pass(&item)?;
    }
    Ok(places)
}

/// What each thread has seen at its list's end.
fn ends(alloc: Global, record: &Record) -> Result<Vec<Places>, NoMemory>
    ensures { IfOk result (λ v. AreEnds (recorded_of record.now) v.items) }
{
    let mut ends = Vec::new(alloc);
    for t in 0..record.lists.len() {
        let list = list_at(record, t);
        let end = end_of(alloc, list)?;
        ends.push(end)?;
    }
    Ok(ends)
}

/// Follows main's list.
fn follow_main(alloc: Global, record: &Record, ends: &[Places]) -> Result<Main, NoMemory>
    requires some { 0 < length record.now.lists.items }
    requires ends { AreEnds (recorded_of record.now) ends.now }
    ensures { IfOk result (IsMain (recorded_of record.now)) }
{
    let list = list_at(record, 0);
    let mut known = Known::new(alloc);
    for i in 0..list.len() {
        let item = item_at(list, i);
        let good = known.owed.allows(&item);
        if !good {
            let n = number(i)?;
            return Ok(Main::Owes(flaw(Cause::Order, 0, n)));
        }
        known.pass(alloc, record, ends, &item)?;
    }
    Ok(Main::Knows(known))
}

/// The first item of a list of thread `t` below what the thread owes.
fn first_owed_in(t: u32, list: &[Item], owed: &Places) -> Result<Option<Flaw>, NoMemory>
    ensures { IfOk result (λ f. f ≡ first_in causes.Order (λ u i x. is_at_least (place_in owed.now) x) t 0 list.now) }
{
    for i in 0..list.len() {
        let item = item_at(list, i);
        let good = owed.allows(&item);
        if !good {
            let n = number(i)?;
            return Ok(Some(flaw(Cause::Order, t, n)));
        }
    }
    Ok(None)
}

/// The first item of a thread below what it owes, where main owes nothing and knows this.
fn first_owed_of_others(
    alloc: Global,
    record: &Record,
    known: &Known,
) -> Result<Option<Flaw>, NoMemory>
    requires some { 0 < length record.now.lists.items }
    requires main { IsMain (recorded_of record.now) (Knows known.now) }
    ensures { IfOk result (λ f. f ≡ first_of_items causes.Order (λ t i x. is_at_least (owed (recorded_of record.now) t i) x) 0 (recorded_of record.now).lists) }
{
    for t in 1..record.lists.len() {
        let n = number(t)?;
        let list = list_at(record, t);
        let mut owed = Places::new(alloc);
        raise_to_start(&mut owed, &known.begun, n)?;
        let found = first_owed_in(n, list, &owed)?;
        match found {
            Some(flaw) => return Ok(Some(flaw)),
            None => {}
        }
    }
    Ok(None)
}

/// The first item below what its thread owes to starts and joins, by the least thread.
pub fn first_owed(alloc: Global, record: &Record) -> Result<Option<Flaw>, NoMemory>
    ensures { IfOk result (λ f. f ≡ first_of_items causes.Order (λ t i x. is_at_least (owed (recorded_of record.now) t i) x) 0 (recorded_of record.now).lists) }
{
    if record.lists.is_empty() {
        return Ok(None);
    }
    let ends = ends(alloc, record)?;
    let main = follow_main(alloc, record, &ends)?;
    match main {
        Main::Owes(flaw) => Ok(Some(flaw)),
        Main::Knows(known) => first_owed_of_others(alloc, record, &known),
    }
}
