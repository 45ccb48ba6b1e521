ghost use Rattle.std.specs.Prelude.{◌≡◌, ◌++◌, ◌∷◌, [], List, map, filter, OnOk, IfOk};
ghost use Rattle.cx_text.specs.Words.{main_word};
ghost use Rattle.cx_scenario.specs.Steps.{with_name};
ghost use Rattle.cx_text.specs.declared.form.Made.TheVariants as mades;
ghost use Rattle.cx_script.specs.Script.{is_thread, is_object, is_callback, makes_of, name_at};
ghost use Rattle.cx_scenario.specs.Whole.{declaration_seen};

use crate::declaration::Declaration;
use cx_names::NoMemory;
use cx_script::Declared;
use std::alloc::Global;

/// The names of threads, objects and callbacks, each by its number.
#[derive(Drop)]
pub struct Roll {
    pub threads: Vec<Vec<u8>>,
    pub objects: Vec<Vec<u8>>,
    pub callbacks: Vec<Vec<u8>>,
}

pub fn is_thread(d: &Declaration) -> bool
    ensures { result ≡ is_thread (declaration_seen d.now) }
{
    matches!(
        d.what,
        Declared::Thread | Declared::JThread | Declared::Async(_, _)
    )
}

fn is_callback(d: &Declaration) -> bool
    ensures { result ≡ is_callback (declaration_seen d.now) }
{
    matches!(d.what, Declared::Callback(_, _))
}

fn is_object(d: &Declaration) -> bool
    ensures { result ≡ is_object (declaration_seen d.now) }
{
    !matches!(d.what, Declared::Thread | Declared::Callback(_, _))
}

/// Adds a name where it belongs there.
fn put_name(
    alloc: Global,
    names: &mut Vec<Vec<u8>>,
    belongs: bool,
    name: &[u8],
) -> Result<(), NoMemory>
    ensures { OnOk result (map (λ n. n.items) names.new.items ≡ with_name (map (λ n. n.items) names.old.items) belongs name.now) }
{
    if belongs {
        let name = Vec::from_slice(alloc, name)?;
        names.push(name)?;
    }
    Ok(())
}

/// The names of threads: main, and those that are declared.
fn thread_names(alloc: Global, declarations: &[Declaration]) -> Result<Vec<Vec<u8>>, NoMemory>
    ensures { IfOk result (λ names. map (λ n. n.items) names.items ≡ main_word ∷ map (λ d. d.name) (filter is_thread (map declaration_seen declarations.now))) }
{
    let mut names = Vec::new(alloc);
    put_name(alloc, &mut names, true, b"main")?;
    for d in declarations {
        put_name(alloc, &mut names, is_thread(d), &d.name)?;
    }
    Ok(names)
}

/// The names of objects.
fn object_names(alloc: Global, declarations: &[Declaration]) -> Result<Vec<Vec<u8>>, NoMemory>
    ensures { IfOk result (λ names. map (λ n. n.items) names.items ≡ map (λ d. d.name) (filter is_object (map declaration_seen declarations.now))) }
{
    let mut names = Vec::new(alloc);
    for d in declarations {
        put_name(alloc, &mut names, is_object(d), &d.name)?;
    }
    Ok(names)
}

/// The names of callbacks.
fn callback_names(alloc: Global, declarations: &[Declaration]) -> Result<Vec<Vec<u8>>, NoMemory>
    ensures { IfOk result (λ names. map (λ n. n.items) names.items ≡ map (λ d. d.name) (filter is_callback (map declaration_seen declarations.now))) }
{
    let mut names = Vec::new(alloc);
    for d in declarations {
        put_name(alloc, &mut names, is_callback(d), &d.name)?;
    }
    Ok(names)
}

impl Roll {
    /// The names that are declared.
    pub fn of(alloc: Global, declarations: &[Declaration]) -> Result<Roll, NoMemory>
        ensures threads { IfOk result (λ r. map (λ n. n.items) r.threads.items ≡ main_word ∷ map (λ d. d.name) (filter is_thread (map declaration_seen declarations.now))) }
        ensures objects { IfOk result (λ r. map (λ n. n.items) r.objects.items ≡ map (λ d. d.name) (filter is_object (map declaration_seen declarations.now))) }
        ensures callbacks { IfOk result (λ r. map (λ n. n.items) r.callbacks.items ≡ map (λ d. d.name) (filter is_callback (map declaration_seen declarations.now))) }
    {
        let threads = thread_names(alloc, declarations)?;
        let objects = object_names(alloc, declarations)?;
        let callbacks = callback_names(alloc, declarations)?;
        Ok(Roll {
            threads,
            objects,
            callbacks,
        })
    }
}

/// The name of a number.
pub fn name_at(names: &[Vec<u8>], i: u32) -> &[u8]
    ensures { result.now ≡ name_at (map (λ n. n.items) names.now) i }
{
    match names.get(i as usize) {
        None => &[],
        Some(name) => name.as_slice(),
    }
}
