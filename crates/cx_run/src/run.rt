//! Main's list, with the threads that it starts and joins.
ghost use Rattle.std.specs.Prelude.{◌≡◌, true, false, ◌-◌, ◌+◌, ◌<◌, ◌≤◌, ℕ, [], ◌∷◌, ◌++◌, length, vec_len, slice_get, slice_set, Some, None, IfOk, OnOk};
ghost use Rattle.cx_items.specs.declared.form.Form.TheVariants as forms;
ghost use Rattle.cx_items.specs.declared.item.Control.TheVariants as controls;
ghost use Rattle.cx_items.specs.declared.item.Item.TheVariants as items;
ghost use Rattle.cx_history.specs.Views.{listed, recorded_of};
ghost use Rattle.cx_history.specs.Histories.{list_of as list_in};
ghost use Rattle.cx_work.specs.Bodies.{Needs, scene_in};
ghost use Rattle.cx_fronts.specs.Counts.{change_count};
ghost use Rattle.cx_io.specs.Spawning.{Raised};
ghost use Rattle.cx_work.specs.RunNow.{IsRunNow, AreAllNew, AreShared, objects_of_all};
ghost use Rattle.cx_work.specs.Steps.{IsNext, forms_at};
ghost use Rattle.cx_work.specs.Accesses.{AreMadeAs};
ghost use Rattle.cx_run.specs.Runs.{IsBegun, IsTallied, IsControlIn, MayJoin, MayRun, IsOfJob, AreOut, running_at, list_at, tally};
ghost use Rattle.cx_run.specs.Results.{IsRightRun, changes_elsewhere};

use crate::handing::{meet_all, take_all_in};
use crate::place::Place;
use cx_history::{Items, List, Record};
use cx_io::Spawner;
use cx_items::{Control, Form, Item};
use cx_jthread::Thread;
use cx_kinds::Access;
use cx_names::{NoMemory, ThreadNo};
use cx_work::{Ended, Gate, Objects, Passes, Standing, Work, room_for};
use std::alloc::Global;
use std::mem;
use std::sync::{Arc, Wait};
use std::thread::Threads;

/// Main's number.
const MAIN: ThreadNo = ThreadNo(0);

/// Main, which makes its own calls, and the other threads: thread t at t - 1.
#[derive(Drop)]
pub(crate) struct Run<G: Gate + Send + Sync> {
    pub(crate) objects: Objects,
    pub(crate) main: Standing,
    pub(crate) others: Vec<Place<G>>,
}

/// The start or the join that comes next, by the first of these forms.
fn control_in(forms: &[Form]) -> Option<Control>
    ensures { IsControlIn forms.now result }
{
    match forms {
        [Form::Does(control), ..] => Some(*control),
        _ => None,
    }
}

/// The number of the thread at this place.
fn after(place: usize) -> ThreadNo
    requires { place < 64 }
    ensures { result.0 ≡ place + 1 }
{
    ThreadNo(place as u32 + 1)
}

/// Starts a thread with this work, or keeps the work where no thread is to be had.
fn begin<G: Gate + Send + Sync, P: Spawner<Work<G>>, R: Threads + Wait + Copy + Send + 'static>(
    rt: &R,
    spawner: &mut P,
    u: ThreadNo,
    work: Work<G>,
) -> (Place<G>, bool)
    requires needs { Needs work }
    ensures place { IsBegun u work result.1 result.0 }
    ensures tally { IsTallied (tally (P.faults spawner.old) (P.started spawner.old) (P.carried spawner.old)) (tally (P.faults spawner.new) (P.started spawner.new) (P.carried spawner.new)) (items.Control (controls.Start u result.1) ∷ []) 0 }
    ensures joins { P.joined spawner.new ≡ P.joined spawner.old }
{
    match Thread::start(rt, spawner, u, work) {
        Ok(thread) => (Place::Running(thread), true),
        Err(work) => (Place::Waiting(work), false),
    }
}

/// Waits until a thread has ended, and gives what its body gave.
fn await_thread<G: Gate + Send + Sync, P: Spawner<Work<G>>, R: Threads + Wait>(
    rt: &R,
    spawner: &mut P,
    mut thread: Thread<Work<G>>,
) -> Ended
    requires may { MayJoin thread }
    ensures gives { IsOfJob thread result }
    ensures started { P.started spawner.new ≡ P.started spawner.old }
    ensures joins { Raised (P.joined spawner.old) (P.joined spawner.new) 1 }
    ensures faults { P.faults spawner.new ≡ P.faults spawner.old }
    ensures carried { Raised (P.carried spawner.old) (P.carried spawner.new) result.made }
{
    match thread.join(rt, spawner, MAIN) {
        Ok(ended) => ended,
        Err(_) => unreachable!(),
    }
}

/// Waits until the thread at this place has ended, where one runs.
fn await_place<G: Gate + Send + Sync, P: Spawner<Work<G>>, R: Threads + Wait>(
    rt: &R,
    spawner: &mut P,
    place: Place<G>,
)
    requires may { MayRun place }
    ensures out { (a b n : ℕ) → AreOut a b (P.started spawner.old) (P.joined spawner.old) (n + running_at place) → AreOut a b (P.started spawner.new) (P.joined spawner.new) n }
{
    match place {
        Place::Running(thread) => {
            let _ = await_thread(rt, spawner, thread);
        }
        Place::Waiting(_) => {}
        Place::Ended(_) => {}
        Place::Idle => {}
    }
}

impl<G: Gate + Send + Sync> Run<G> {
    ghost use Rattle.cx_run.specs.Runs.{IsKept, IsRun, objects_at, IsAtEnd, AllHaveCome, AreMains, KeepsTally, KeepsOut, AreOut, AreJoined, IsHere, HasComeAt, MayAwait, IsAwaited, steps_in, running_in};

    /// Everything that a run needs: main at the start of its body, and the work of each other thread.
    pub(crate) fn prepare(
        alloc: Global,
        objects: &Objects,
        passes: Passes,
        gate: &Arc<G, Global>,
    ) -> Result<Run<G>, NoMemory>
        requires runs { IsRunNow (scene_in objects.now) }
        requires made { AreMadeAs (scene_in objects.now).objects (objects_of_all passes.threads.items) }
        requires passes { AreAllNew (objects_of_all passes.threads.items) (length (scene_in objects.now).threads) passes.threads.items }
        requires shares { AreShared (scene_in objects.now) passes.threads.items }
        requires threads { (1 ≤ length (scene_in objects.now).threads) × (length (scene_in objects.now).threads ≤ 64) }
        ensures run { IfOk result (λ r. IsRun (objects_of_all passes.threads.items) r) }
        ensures objects { IfOk result (λ r. scene_in r.objects ≡ scene_in objects.now) }
        ensures list { IfOk result (λ r. (r.main.list.items ≡ []) × (steps_in r.others.items ≡ 0)) }
        ensures mains { IfOk result (λ r. AreMains r.main.list.items r.others.items) }
        ensures none_runs { IfOk result (λ r. running_in r.others.items ≡ 0) }
    {
        let mut threads = passes.threads;
        let accesses = threads.remove(0);
        let plan = &objects.plan;
        let room = room_for(plan, MAIN);
        let main = Standing::start(alloc, plan, MAIN, accesses, room)?;
        let mut others = Vec::with_capacity(alloc, threads.len())?;
        for (i, accesses) in threads.into_iter().enumerate() {
            let work = Work::new(
                alloc,
                objects.share()?,
                after(i),
                accesses,
                Arc::try_clone(gate)?,
            )?;
            others.push(Place::Waiting(work))?;
        }
        Ok(Run {
            objects: objects.share()?,
            main,
            others,
        })
    }

    /// Makes main's list to its end, and waits until every thread that was started has ended.
    pub(crate) fn complete<P: Spawner<Work<G>>, R: Threads + Wait + Copy + Send + 'static>(
        &mut self,
        rt: &R,
        spawner: &mut P,
        gate: &G,
    ) -> Result<(), NoMemory>
        requires run { IsRun (objects_at self.old) self.old }
        requires mains { AreMains self.old.main.list.items self.old.others.items }
        ensures objects { self.new.objects ≡ self.old.objects }
        ensures kept { IsKept (objects_at self.old) self.new }
        ensures run { OnOk result (IsRun (objects_at self.old) self.new) }
        ensures tally { OnOk result (KeepsTally self.old (tally (P.faults spawner.old) (P.started spawner.old) (P.carried spawner.old)) self.new (tally (P.faults spawner.new) (P.started spawner.new) (P.carried spawner.new))) }
        ensures out { KeepsOut self.old.others.items (P.started spawner.old) (P.joined spawner.old) self.new.others.items (P.started spawner.new) (P.joined spawner.new) }
        ensures ended { OnOk result (IsAtEnd self.new) }
        ensures come { OnOk result (AllHaveCome self.new) }
    {
        self.make_main(rt, spawner, gate)?;
        self.gather(rt, spawner)
    }

    /// Makes main's list to its end. Waits.
    fn make_main<P: Spawner<Work<G>>, R: Threads + Wait + Copy + Send + 'static>(
        &mut self,
        rt: &R,
        spawner: &mut P,
        gate: &G,
    ) -> Result<(), NoMemory>
        requires run { IsRun (objects_at self.old) self.old }
        requires mains { AreMains self.old.main.list.items self.old.others.items }
        ensures objects { self.new.objects ≡ self.old.objects }
        ensures kept { IsKept (objects_at self.old) self.new }
        ensures run { OnOk result (IsRun (objects_at self.old) self.new) }
        ensures tally { OnOk result (KeepsTally self.old (tally (P.faults spawner.old) (P.started spawner.old) (P.carried spawner.old)) self.new (tally (P.faults spawner.new) (P.started spawner.new) (P.carried spawner.new))) }
        ensures out { KeepsOut self.old.others.items (P.started spawner.old) (P.joined spawner.old) self.new.others.items (P.started spawner.new) (P.joined spawner.new) }
        ensures ended { OnOk result (IsAtEnd self.new) }
    {
        for _ in rt.forever() {
            self.main.enter(&self.objects.plan, gate);
            if !self.main.next(&self.objects.plan)? {
                return Ok(());
            }
            let item = self.step(rt, spawner)?;
            self.main.leave(gate, &item);
        }
        unreachable!()
    }

    /// Makes main's next item, and puts it into its list.
    fn step<P: Spawner<Work<G>>, R: Threads + Wait + Copy + Send + 'static>(
        &mut self,
        rt: &R,
        spawner: &mut P,
    ) -> Result<Item, NoMemory>
        requires next { IsNext (scene_in self.old.objects) 0 self.old.main.local true self.old.main.forms.items }
        requires run { IsRun (objects_at self.old) self.old }
        requires mains { AreMains self.old.main.list.items self.old.others.items }
        ensures objects { self.new.objects ≡ self.old.objects }
        ensures kept { IsKept (objects_at self.old) self.new }
        ensures run { OnOk result (IsRun (objects_at self.old) self.new) }
        ensures tally { OnOk result (KeepsTally self.old (tally (P.faults spawner.old) (P.started spawner.old) (P.carried spawner.old)) self.new (tally (P.faults spawner.new) (P.started spawner.new) (P.carried spawner.new))) }
        ensures out { KeepsOut self.old.others.items (P.started spawner.old) (P.joined spawner.old) self.new.others.items (P.started spawner.new) (P.joined spawner.new) }
        ensures mains { OnOk result (AreMains self.new.main.list.items self.new.others.items) }
    {
        match control_in(self.main.forms()) {
            Some(Control::Start(u, _)) => self.start(rt, spawner, u),
            Some(Control::Join(u)) => self.join(rt, spawner, u),
            Some(Control::Launch(..)) => unreachable!(),
            None => self.main.make(rt, &self.objects.plan),
        }
    }

    /// The place of a thread other than main, which is left idle.
    fn leave(&mut self, u: ThreadNo) -> Place<G>
        requires there { (0 < u.0) × (u.0 ≤ vec_len self.old.others) }
        ensures parts { (self.new.objects ≡ self.old.objects) × (self.new.main ≡ self.old.main) }
        ensures here { IsHere u.0 result self.old.others.items self.new.others.items }
    {
        mem::replace(&mut self.others[u.0 as usize - 1], Place::Idle)
    }

    /// Starts a thread, which begins with what main has seen, and puts the item into main's list.
    fn start<P: Spawner<Work<G>>, R: Threads + Wait + Copy + Send + 'static>(
        &mut self,
        rt: &R,
        spawner: &mut P,
        u: ThreadNo,
    ) -> Result<Item, NoMemory>
        requires next { forms_at (scene_in self.old.objects) 0 self.old.main.local ≡ forms.Does (controls.Start u true) ∷ forms.Does (controls.Start u false) ∷ [] }
        requires run { IsRun (objects_at self.old) self.old }
        requires mains { AreMains self.old.main.list.items self.old.others.items }
        ensures objects { self.new.objects ≡ self.old.objects }
        ensures kept { IsKept (objects_at self.old) self.new }
        ensures run { OnOk result (IsRun (objects_at self.old) self.new) }
        ensures tally { OnOk result (KeepsTally self.old (tally (P.faults spawner.old) (P.started spawner.old) (P.carried spawner.old)) self.new (tally (P.faults spawner.new) (P.started spawner.new) (P.carried spawner.new))) }
        ensures out { KeepsOut self.old.others.items (P.started spawner.old) (P.joined spawner.old) self.new.others.items (P.started spawner.new) (P.joined spawner.new) }
        ensures mains { OnOk result (AreMains self.new.main.list.items self.new.others.items) }
    {
        let mut work = self.leave(u).into_work().unwrap();
        meet_all(
            self.main.accesses.as_mut_slice(),
            work.standing.accesses.as_mut_slice(),
        );
        let (place, started) = begin(rt, spawner, u, work);
        self.others[u.0 as usize - 1] = place;
        let item = Item::Control(Control::Start(u, started));
        self.main.take(&self.objects.plan, item)?;
        Ok(item)
    }

    /// Joins a thread and takes its passes in, and puts the item into main's list.
    fn join<P: Spawner<Work<G>>, R: Threads + Wait + Copy + Send + 'static>(
        &mut self,
        rt: &R,
        spawner: &mut P,
        u: ThreadNo,
    ) -> Result<Item, NoMemory>
        requires next { forms_at (scene_in self.old.objects) 0 self.old.main.local ≡ forms.Does (controls.Join u) ∷ [] }
        requires run { IsRun (objects_at self.old) self.old }
        requires mains { AreMains self.old.main.list.items self.old.others.items }
        ensures objects { self.new.objects ≡ self.old.objects }
        ensures kept { IsKept (objects_at self.old) self.new }
        ensures run { OnOk result (IsRun (objects_at self.old) self.new) }
        ensures tally { OnOk result (KeepsTally self.old (tally (P.faults spawner.old) (P.started spawner.old) (P.carried spawner.old)) self.new (tally (P.faults spawner.new) (P.started spawner.new) (P.carried spawner.new))) }
        ensures out { KeepsOut self.old.others.items (P.started spawner.old) (P.joined spawner.old) self.new.others.items (P.started spawner.new) (P.joined spawner.new) }
        ensures mains { OnOk result (AreMains self.new.main.list.items self.new.others.items) }
    {
        let thread = self.leave(u).into_thread().unwrap();
        let list = self.await_end(rt, spawner, thread)?;
        self.others[u.0 as usize - 1] = Place::Ended(list);
        let item = Item::Control(Control::Join(u));
        self.main.take(&self.objects.plan, item)?;
        Ok(item)
    }

    /// Waits until a thread has ended, takes its passes in, and gives its list.
    fn await_end<P: Spawner<Work<G>>, R: Threads + Wait>(
        &mut self,
        rt: &R,
        spawner: &mut P,
        thread: Thread<Work<G>>,
    ) -> Result<Vec<Item>, NoMemory>
        requires kept { IsKept (objects_at self.old) self.old }
        requires may { MayAwait (scene_in self.old.objects) (objects_at self.old) thread }
        ensures kept { IsKept (objects_at self.old) self.new }
        ensures parts { (self.new.objects ≡ self.old.objects) × (self.new.others ≡ self.old.others) × (self.new.main.list ≡ self.old.main.list) × (self.new.main.local ≡ self.old.main.local) }
        ensures ended { IfOk result (λ ys. IsAwaited (scene_in self.old.objects) (objects_at self.old) thread ys.items self.old.main.accesses.items self.new.main.accesses.items) }
        ensures started { P.started spawner.new ≡ P.started spawner.old }
        ensures joins { Raised (P.joined spawner.old) (P.joined spawner.new) 1 }
        ensures faults { P.faults spawner.new ≡ P.faults spawner.old }
        ensures carried { IfOk result (λ ys. Raised (P.carried spawner.old) (P.carried spawner.new) (change_count ys.items)) }
    {
        let ended = await_thread(rt, spawner, thread);
        let Ended {
            list,
            accesses,
            failed,
            ..
        } = ended;
        take_all_in(self.main.accesses.as_mut_slice(), accesses);
        if failed { Err(NoMemory) } else { Ok(list) }
    }

    /// Waits until every thread that was started has ended, and takes the passes in of all that main hasn't joined.
    fn gather<P: Spawner<Work<G>>, R: Threads + Wait>(
        &mut self,
        rt: &R,
        spawner: &mut P,
    ) -> Result<(), NoMemory>
        requires run { IsRun (objects_at self.old) self.old }
        ensures objects { self.new.objects ≡ self.old.objects }
        ensures kept { IsKept (objects_at self.old) self.new }
        ensures run { OnOk result (IsRun (objects_at self.old) self.new) }
        ensures tally { OnOk result (KeepsTally self.old (tally (P.faults spawner.old) (P.started spawner.old) (P.carried spawner.old)) self.new (tally (P.faults spawner.new) (P.started spawner.new) (P.carried spawner.new))) }
        ensures out { KeepsOut self.old.others.items (P.started spawner.old) (P.joined spawner.old) self.new.others.items (P.started spawner.new) (P.joined spawner.new) }
        ensures come { OnOk result (AllHaveCome self.new) }
        ensures main { (self.new.main.list ≡ self.old.main.list) × (self.new.main.local ≡ self.old.main.local) }
    {
        for i in 0..self.others.len() {
            self.gather_one(rt, spawner, i)?;
        }
        Ok(())
    }

    /// Takes in the passes of the thread at a place.
    fn gather_one<P: Spawner<Work<G>>, R: Threads + Wait>(
        &mut self,
        rt: &R,
        spawner: &mut P,
        i: usize,
    ) -> Result<(), NoMemory>
        requires there { i < length self.old.others.items }
        requires run { IsRun (objects_at self.old) self.old }
        ensures objects { self.new.objects ≡ self.old.objects }
        ensures kept { IsKept (objects_at self.old) self.new }
        ensures run { OnOk result (IsRun (objects_at self.old) self.new) }
        ensures tally { OnOk result (KeepsTally self.old (tally (P.faults spawner.old) (P.started spawner.old) (P.carried spawner.old)) self.new (tally (P.faults spawner.new) (P.started spawner.new) (P.carried spawner.new))) }
        ensures out { KeepsOut self.old.others.items (P.started spawner.old) (P.joined spawner.old) self.new.others.items (P.started spawner.new) (P.joined spawner.new) }
        ensures come { OnOk result (HasComeAt i self.old.others.items self.new.others.items) }
        ensures main { (self.new.main.list ≡ self.old.main.list) × (self.new.main.local ≡ self.old.main.local) }
    {
        match mem::replace(&mut self.others[i], Place::Idle) {
            Place::Waiting(work) => {
                take_all_in(self.main.accesses.as_mut_slice(), work.standing.accesses);
                Ok(())
            }
            Place::Running(thread) => {
                let list = self.await_end(rt, spawner, thread)?;
                self.others[i] = Place::Ended(list);
                Ok(())
            }
            Place::Ended(list) => {
                self.others[i] = Place::Ended(list);
                Ok(())
            }
            Place::Idle => Ok(()),
        }
    }

    /// After want of memory: main gives up what it holds, and waits until every thread has ended.
    pub(crate) fn give_up<P: Spawner<Work<G>>, R: Threads + Wait>(self, rt: &R, spawner: &mut P)
        requires kept { IsKept (objects_at self) self }
        ensures joined { (a b : ℕ) → AreOut a b (P.started spawner.old) (P.joined spawner.old) (running_in self.others.items) → AreJoined a b (P.started spawner.new) (P.joined spawner.new) }
    {
        let Run {
            mut main,
            mut others,
            ..
        } = self;
        main.give_up(rt);
        for i in 0..others.len() {
            let place = mem::replace(&mut others[i], Place::Idle);
            await_place(rt, spawner, place);
        }
    }

    /// The record of what each thread did, and main's accesses.
    pub(crate) fn into_record(self, alloc: Global) -> Result<(Record, Vec<Access>), NoMemory>
        requires run { IsRun (objects_at self) self }
        requires ended { IsAtEnd self }
        requires come { AllHaveCome self }
        ensures right { IfOk result (λ t. IsRightRun (scene_in self.objects) (objects_at self) (recorded_of t.0) t.1.items) }
        ensures steps { IfOk result (λ t. changes_elsewhere (recorded_of t.0) ≡ steps_in self.others.items) }
        ensures list { IfOk result (λ t. list_in (recorded_of t.0) 0 ≡ self.main.list.items) }
    {
        let Run {
            objects,
            main,
            others,
        } = self;
        let Standing { accesses, list, .. } = main;
        let mut lists = Vec::new(alloc);
        lists.push(made(list))?;
        for place in others {
            lists.push(list_of(alloc, place))?;
        }
        let version = objects.plan.version;
        Ok((Record { version, lists }, accesses))
    }
}

/// The list of the thread at a place.
fn list_of<G: Gate + Send + Sync>(alloc: Global, place: Place<G>) -> List
    ensures { listed result ≡ list_at place }
{
    match place {
        Place::Ended(list) => made(list),
        _ => unstarted(alloc),
    }
}

/// The list of a thread that was started.
fn made(items: Vec<Item>) -> List
    ensures { listed result ≡ Some items.items }
{
    List {
        started: true,
        items: Items { items },
    }
}

/// The list of a thread that was never started.
fn unstarted(alloc: Global) -> List
    ensures { listed result ≡ None }
{
    List {
        started: false,
        items: Items {
            items: Vec::new(alloc),
        },
    }
}
