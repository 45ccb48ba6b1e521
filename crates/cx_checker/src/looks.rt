ghost use Rattle.std.specs.Prelude.{◌≡◌, ℕ, ◌<◌, ◌==◌, ◌++◌, ◌∷◌, [], length, map, IfOk, if◌then◌else◌};
ghost use Rattle.cx_history.specs.Views.{listed};
ghost use Rattle.cx_checker.specs.Looks.{look_on, looks_in, looks_from, looks_at};

use crate::by_object::items;
use cx_history::List;
use cx_items::Item;
use cx_machine::Look;
use cx_names::{NoMemory, ObjectNo};
use std::alloc::Global;

/// The looks at an object, in order of thread and item.
#[derive(Drop)]
pub struct Looks {
    pub looks: Vec<Look>,
}

/// Puts a look behind the others at its object; at none that isn't there.
fn put_look(by_object: &mut Vec<Looks>, o: ObjectNo, look: Look) -> Result<(), NoMemory>
    ensures count { IfOk result (λ _. length by_object.new.items ≡ length by_object.old.items) }
    ensures put { IfOk result (λ _. (q : ℕ) → q < length by_object.old.items → looks_at by_object.new.items q ≡ looks_at by_object.old.items q ++ (if o.0 == q then look ∷ [] else [])) }
{
    let i = o.0 as usize;
    if i < by_object.len() {
        by_object[i].looks.push(look)?;
    }
    Ok(())
}

/// Puts the item where it is a look.
fn put_item(by_object: &mut Vec<Looks>, item: &Item) -> Result<(), NoMemory>
    ensures count { IfOk result (λ _. length by_object.new.items ≡ length by_object.old.items) }
    ensures put { IfOk result (λ _. (q : ℕ) → q < length by_object.old.items → looks_at by_object.new.items q ≡ looks_at by_object.old.items q ++ look_on q item.now) }
{
    match item {
        Item::Look(o, look) => put_look(by_object, *o, *look),
        _ => Ok(()),
    }
}

/// Puts the looks among the items of a list.
fn put_items(by_object: &mut Vec<Looks>, list: &[Item]) -> Result<(), NoMemory>
    ensures count { IfOk result (λ _. length by_object.new.items ≡ length by_object.old.items) }
    ensures put { IfOk result (λ _. (q : ℕ) → q < length by_object.old.items → looks_at by_object.new.items q ≡ looks_at by_object.old.items q ++ looks_in q list.now) }
{
    for i in 0..list.len() {
        let item = list[i];
        put_item(by_object, &item)?;
    }
    Ok(())
}

/// So many objects without a look.
fn unlooked(alloc: Global, objects: usize) -> Result<Vec<Looks>, NoMemory>
    ensures count { IfOk result (λ v. length v.items ≡ objects) }
    ensures none { IfOk result (λ v. (q : ℕ) → looks_at v.items q ≡ []) }
{
    let mut by_object = Vec::new(alloc);
    for _object in 0..objects {
        by_object.push(Looks {
            looks: Vec::new(alloc),
        })?;
    }
    Ok(by_object)
}

/// The looks at each of so many objects.
pub fn looks_by_object(
    alloc: Global,
    objects: usize,
    lists: &[List],
) -> Result<Vec<Looks>, NoMemory>
    ensures count { IfOk result (λ v. length v.items ≡ objects) }
    ensures each { IfOk result (λ v. (q : ℕ) → q < objects → looks_at v.items q ≡ looks_from q (map listed lists.now)) }
{
    let mut by_object = unlooked(alloc, objects)?;
    for t in 0..lists.len() {
        let list = items(&lists[t]);
        put_items(&mut by_object, list)?;
    }
    Ok(by_object)
}
