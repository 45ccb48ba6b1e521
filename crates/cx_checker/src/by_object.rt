ghost use Rattle.std.specs.Prelude.{◌≡◌, ℕ, ◌<◌, ◌==◌, ◌++◌, ◌∷◌, [], length, map, IfOk, if◌then◌else◌};
ghost use Rattle.cx_history.specs.Histories.{items_of, change_on, changes_in, changes_from};
ghost use Rattle.cx_history.specs.Views.{listed};
ghost use Rattle.cx_checker.specs.Views.{placed_of, changes_at};

use cx_history::List;
use cx_items::Item;
use cx_machine::Entry;
use cx_names::{NoMemory, ObjectNo};
use std::alloc::Global;

/// A change of an object, its position, and where it stands in the record.
#[derive(Clone, Copy)]
pub struct Change {
    pub position: u32,
    pub thread: u32,
    pub item: u32,
    pub entry: Entry,
}

/// The changes of an object, in order of thread and item.
#[derive(Drop)]
pub struct Changes {
    pub changes: Vec<Change>,
}

/// The number as one of 32 bits; a list of more items doesn't fit any memory.
pub fn number(i: usize) -> Result<u32, NoMemory>
    ensures { IfOk result (λ n. n ≡ i) }
{
    u32::try_from(i).ok().ok_or(NoMemory)
}

/// The items of a thread's list, none of a thread that wasn't started.
pub fn items(list: &List) -> &[Item]
    ensures { result.now ≡ items_of (listed list.now) }
{
    if list.started {
        list.items.items.as_slice()
    } else {
        &[]
    }
}

/// Puts a change behind the others of its object; of none that isn't there.
fn put_change(by_object: &mut Vec<Changes>, o: ObjectNo, change: Change) -> Result<(), NoMemory>
    ensures count { IfOk result (λ _. length by_object.new.items ≡ length by_object.old.items) }
    ensures put { IfOk result (λ _. (q : ℕ) → q < length by_object.old.items → changes_at by_object.new.items q ≡ changes_at by_object.old.items q ++ (if o.0 == q then placed_of change ∷ [] else [])) }
{
    let i = o.0 as usize;
    if i < by_object.len() {
        by_object[i].changes.push(change)?;
    }
    Ok(())
}

/// Puts the item `i` of thread `t` where it is a change.
fn put_item(by_object: &mut Vec<Changes>, t: u32, i: u32, item: &Item) -> Result<(), NoMemory>
    ensures count { IfOk result (λ _. length by_object.new.items ≡ length by_object.old.items) }
    ensures put { IfOk result (λ _. (q : ℕ) → q < length by_object.old.items → changes_at by_object.new.items q ≡ changes_at by_object.old.items q ++ change_on q t i item.now) }
{
    match item {
        Item::Change(o, position, entry) => {
            let change = Change {
                position: *position,
                thread: t,
                item: i,
                entry: *entry,
            };
            put_change(by_object, *o, change)
        }
        _ => Ok(()),
    }
}

/// Puts the changes among the items of thread `t`.
fn put_items(by_object: &mut Vec<Changes>, t: u32, list: &[Item]) -> Result<(), NoMemory>
    ensures count { IfOk result (λ _. length by_object.new.items ≡ length by_object.old.items) }
    ensures put { IfOk result (λ _. (q : ℕ) → q < length by_object.old.items → changes_at by_object.new.items q ≡ changes_at by_object.old.items q ++ changes_in q t 0 list.now) }
{
    for i in 0..list.len() {
        let n = number(i)?;
        let item = list[i];
        put_item(by_object, t, n, &item)?;
    }
    Ok(())
}

/// So many objects without a change.
fn unchanged(alloc: Global, objects: usize) -> Result<Vec<Changes>, NoMemory>
    ensures count { IfOk result (λ v. length v.items ≡ objects) }
    ensures none { IfOk result (λ v. (q : ℕ) → changes_at v.items q ≡ []) }
{
    let mut by_object = Vec::new(alloc);
    for _object in 0..objects {
        by_object.push(Changes {
            changes: Vec::new(alloc),
        })?;
    }
    Ok(by_object)
}

/// The changes of each of so many objects.
pub fn changes_by_object(
    alloc: Global,
    objects: usize,
    lists: &[List],
) -> Result<Vec<Changes>, NoMemory>
    ensures count { IfOk result (λ v. length v.items ≡ objects) }
    ensures each { IfOk result (λ v. (q : ℕ) → q < objects → changes_at v.items q ≡ changes_from q 0 (map listed lists.now)) }
{
    let mut by_object = unchanged(alloc, objects)?;
    for t in 0..lists.len() {
        let n = number(t)?;
        let list = items(&lists[t]);
        put_items(&mut by_object, n, list)?;
    }
    Ok(by_object)
}
