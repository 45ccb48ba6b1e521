ghost use Rattle.std.specs.Prelude.{◌≡◌, ◌++◌, ◌∷◌, [], ℕ, false, List, map, OnOk, IfOk, length};
ghost use Rattle.std.specs.Str.{bytes_eq};
ghost use Rattle.cx_script.specs.Script.{declarations_of, place_in};
ghost use Rattle.cx_scenario.specs.Views.{filled, names_seen, group_seen, group_name};
ghost use Rattle.cx_scenario.specs.Finished.{calls_in, AllApart};
ghost use Rattle.cx_scenario.specs.Whole.{declaration_seen, one_declared};

use crate::declaration::Declaration;
use crate::groups::Group;
use crate::names::Names;
use crate::said::Said;
use cx_names::NoMemory;
use cx_scene::Call;
use std::alloc::Global;

/// Adds what a line declares.
fn put_declared(
    alloc: Global,
    out: &mut Vec<Declaration>,
    names: &Names,
    line: &Said<'_>,
) -> Result<(), NoMemory>
    ensures { OnOk result (map declaration_seen out.new.items ≡ map declaration_seen out.old.items ++ one_declared (names_seen names.now) (filled line.now)) }
{
    if line.form.makes().is_none() {
        return Ok(());
    }
    let declared = names.declared_of(line);
    match declared {
        None => Err(NoMemory),
        Some(what) => {
            let name = Vec::from_slice(alloc, line.subject())?;
            out.push(Declaration { name, what })?;
            Ok(())
        }
    }
}

/// What the kept lines declare, in their order.
pub fn declarations_of(
    alloc: Global,
    names: &Names,
    kept: &[Said<'_>],
) -> Result<Vec<Declaration>, NoMemory>
    ensures { IfOk result (λ ds. map declaration_seen ds.items ≡ declarations_of (names_seen names.now) (map filled kept.now)) }
{
    let mut out = Vec::new(alloc);
    for line in kept {
        put_declared(alloc, &mut out, names, line)?;
    }
    Ok(out)
}

/// The place of the first body of a thread, and their count where it has none.
fn place_of(groups: &[Group<'_>], name: &[u8]) -> usize
    ensures { result ≡ place_in (map group_name groups.now) name.now }
{
    for (i, group) in groups.iter().enumerate() {
        if group.thread == name {
            return i;
        }
    }
    groups.len()
}

/// Takes the calls of a thread out.
fn take_calls(alloc: Global, groups: &mut Vec<Group<'_>>, name: &[u8]) -> Vec<Call>
    ensures value { result.items ≡ calls_in (map group_seen groups.old.items) name.now }
    ensures others { (other : List ℕ) → bytes_eq name.now other ≡ false → calls_in (map group_seen groups.new.items) other ≡ calls_in (map group_seen groups.old.items) other }
{
    let place = place_of(groups, name);
    if place < groups.len() {
        let group = groups.remove(place);
        let Group { thread: _, calls } = group;
        calls
    } else {
        Vec::new(alloc)
    }
}

/// The calls of each thread.
pub fn bodies_of(
    alloc: Global,
    threads: &[Vec<u8>],
    groups: Vec<Group<'_>>,
) -> Result<Vec<Vec<Call>>, NoMemory>
    requires { AllApart (map (λ n. n.items) threads.now) }
    ensures { IfOk result (λ bodies. map (λ b. b.items) bodies.items ≡ map (calls_in (map group_seen groups.entry.items)) (map (λ n. n.items) threads.now)) }
{
    let mut left = groups;
    let mut bodies = Vec::new(alloc);
    for name in threads {
        let calls = take_calls(alloc, &mut left, name);
        bodies.push(calls)?;
    }
    Ok(bodies)
}
