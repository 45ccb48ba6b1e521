ghost use Rattle.std.specs.Prelude.{◌≡◌, ◌++◌, ◌∷◌, [], List, map, OnOk, IfOk, length};
ghost use Rattle.std.specs.List.{flat_map};
ghost use Rattle.cx_scene.specs.declared.declared.Thread.TheVariants as thread_kinds;
ghost use Rattle.cx_script.specs.Numbered.{threads_made, objects_made, callbacks_made, threads_from, objects_from};
ghost use Rattle.cx_scenario.specs.Whole.{declaration_seen, callbacks_from};

use crate::declaration::Declaration;
use cx_names::{NoMemory, ObjectNo, ThreadNo};
use cx_scene::{Callback, Object, Thread};
use cx_script::Declared;
use std::alloc::Global;

/// What is declared, by numbers.
#[derive(Drop)]
pub struct Numbered {
    pub threads: Vec<Thread>,
    pub objects: Vec<Object>,
    pub callbacks: Vec<Callback>,
}

/// Adds the thread of a declaration, where the next object has number `o`.
fn put_thread(threads: &mut Vec<Thread>, o: u32, what: &Declared) -> Result<(), NoMemory>
    ensures { OnOk result (threads.new.items ≡ threads.old.items ++ threads_made o what.now) }
{
    match what {
        Declared::Thread => threads.push(Thread::Plain)?,
        Declared::JThread => threads.push(Thread::Stoppable(ObjectNo(o)))?,
        Declared::Async(_, _) => threads.push(Thread::Launched(ObjectNo(o)))?,
        _ => {}
    }
    Ok(())
}

/// Adds the object of a declaration, where the next thread has number `t`.
fn put_object(objects: &mut Vec<Object>, t: u32, what: &Declared) -> Result<(), NoMemory>
    ensures { OnOk result (objects.new.items ≡ objects.old.items ++ objects_made t what.now) }
{
    match what {
        Declared::Thread | Declared::Callback(_, _) => {}
        Declared::JThread => objects.push(Object::StopOfThread)?,
        Declared::Async(policy, function) => objects.push(Object::Async {
            policy: *policy,
            function: *function,
            thread: ThreadNo(t),
        })?,
        Declared::Mutex(numbers) => {
            if *numbers >= 256 {
                return Err(NoMemory);
            }
            objects.push(Object::Mutex {
                numbers: *numbers as u8,
            })?;
        }
        Declared::Recursive => objects.push(Object::Recursive)?,
        Declared::Shared => objects.push(Object::Shared)?,
        Declared::Semaphore(count, max) => objects.push(Object::Semaphore {
            count: *count,
            max: *max,
        })?,
        Declared::Latch(count) => objects.push(Object::Latch { count: *count })?,
        Declared::Barrier(count, small) => objects.push(Object::Barrier {
            count: *count,
            small: *small,
        })?,
        Declared::Once => objects.push(Object::Once)?,
        Declared::Condition => objects.push(Object::Condition)?,
        Declared::Stop(holders) => objects.push(Object::Stop {
            holders: holders.copied(),
        })?,
        Declared::Promise(owner, reader) => objects.push(Object::Promise {
            owner: *owner,
            reader: *reader,
        })?,
        Declared::SharedPromise(owner, readers) => objects.push(Object::SharedPromise {
            owner: *owner,
            readers: readers.copied(),
        })?,
        Declared::Task(owner, reader, function) => objects.push(Object::Task {
            owner: *owner,
            reader: *reader,
            function: *function,
        })?,
    }
    Ok(())
}

/// Adds the callback of a declaration.
fn put_callback(callbacks: &mut Vec<Callback>, what: &Declared) -> Result<(), NoMemory>
    ensures { OnOk result (callbacks.new.items ≡ callbacks.old.items ++ callbacks_made what.now) }
{
    if let Declared::Callback(stop, action) = what {
        callbacks.push(Callback {
            stop: *stop,
            action: *action,
        })?;
    }
    Ok(())
}

/// A count as a number of 32 bits.
fn small(n: usize) -> Result<u32, NoMemory>
    ensures { IfOk result (λ m. m ≡ n) }
{
    if n < 4294967296 {
        Ok(n as u32)
    } else {
        Err(NoMemory)
    }
}

impl Numbered {
    /// Adds what one declaration makes.
    fn put(&mut self, what: &Declared) -> Result<(), NoMemory>
        ensures threads { OnOk result (self.new.threads.items ≡ self.old.threads.items ++ threads_made (length self.old.objects.items) what.now) }
        ensures objects { OnOk result (self.new.objects.items ≡ self.old.objects.items ++ objects_made (length self.old.threads.items) what.now) }
        ensures callbacks { OnOk result (self.new.callbacks.items ≡ self.old.callbacks.items ++ callbacks_made what.now) }
    {
        let o = small(self.objects.len())?;
        let t = small(self.threads.len())?;
        put_thread(&mut self.threads, o, what)?;
        put_object(&mut self.objects, t, what)?;
        put_callback(&mut self.callbacks, what)
    }

    /// All that is declared, in order; main is thread 0.
    pub fn of(alloc: Global, declarations: &[Declaration]) -> Result<Numbered, NoMemory>
        ensures threads { IfOk result (λ n. n.threads.items ≡ thread_kinds.Plain ∷ threads_from 0 (map declaration_seen declarations.now)) }
        ensures objects { IfOk result (λ n. n.objects.items ≡ objects_from 1 (map declaration_seen declarations.now)) }
        ensures callbacks { IfOk result (λ n. n.callbacks.items ≡ callbacks_from (map declaration_seen declarations.now)) }
    {
        let mut threads = Vec::new(alloc);
        threads.push(Thread::Plain)?;
        let mut numbered = Numbered {
            threads,
            objects: Vec::new(alloc),
            callbacks: Vec::new(alloc),
        };
        for d in declarations {
            numbered.put(&d.what)?;
        }
        Ok(numbered)
    }
}
