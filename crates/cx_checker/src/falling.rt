ghost use Rattle.std.specs.Prelude.{◌≡◌, ◌<◌, length, take, map, slice_get, Some, IfOk};
ghost use Rattle.cx_history.specs.declared.flaw.Cause.TheVariants as causes;
ghost use Rattle.cx_history.specs.Histories.{place, place_from};
ghost use Rattle.cx_history.specs.Legal.{is_at_least};
ghost use Rattle.cx_history.specs.Flaw.{flaw, first_in, first_of_items};
ghost use Rattle.cx_history.specs.Views.{recorded_of};

use crate::by_object::{items, number};
use crate::places::Places;
use cx_history::{Cause, Flaw, Record};
use cx_items::Item;
use cx_names::{NoMemory, ThreadNo};
use std::alloc::Global;

/// The flaw of this cause at item `i` of thread `t`.
pub fn flaw(cause: Cause, t: u32, i: u32) -> Flaw
    ensures { result ≡ flaw cause t i }
{
    Flaw {
        thread: ThreadNo(t),
        item: i,
        cause,
    }
}

/// The first item of a list of thread `t` whose position or stamp is below its thread's place.
fn first_fall_in(alloc: Global, t: u32, list: &[Item]) -> Result<Option<Flaw>, NoMemory>
    ensures { IfOk result (λ f. f ≡ first_in causes.Fell (λ u i x. is_at_least (λ o. place_from o 0 (take i list.now)) x) t 0 list.now) }
{
    let mut places = Places::new(alloc);
    for i in 0..list.len() {
        let item = item_at(list, i);
        let good = places.allows(&item);
        if !good {
            let n = number(i)?;
            return Ok(Some(flaw(Cause::Fell, t, n)));
        }
        places.pass(&item)?;
    }
    Ok(None)
}

/// The item of this number.
pub fn item_at(list: &[Item], i: usize) -> Item
    requires { i < length list.now }
    ensures { slice_get list.now i ≡ Some result }
{
    list[i]
}

/// The first item whose position or stamp is below its thread's place, by the least thread.
pub fn first_fall(alloc: Global, record: &Record) -> Result<Option<Flaw>, NoMemory>
    ensures { IfOk result (λ f. f ≡ first_of_items causes.Fell (λ t i x. is_at_least (place (recorded_of record.now) t i) x) 0 (recorded_of record.now).lists) }
{
    for t in 0..record.lists.len() {
        let n = number(t)?;
        let list = items(&record.lists[t]);
        let fall = first_fall_in(alloc, n, list)?;
        match fall {
            Some(flaw) => return Ok(Some(flaw)),
            None => {}
        }
    }
    Ok(None)
}
