ghost use Rattle.std.specs.Prelude.{◌≡◌, ℕ, true, false, [], ◌∷◌, map, slice_get, is_some, IfSome};
ghost use Rattle.std.specs.List.{list_all};
ghost use Rattle.cx_scene.specs.Scene.{scene_of};
ghost use Rattle.cx_replay.specs.declared.knowing.Known.TheVariants.{Nothing};
ghost use Rattle.cx_replay.specs.Schedule.{first_made};
ghost use Rattle.cx_replay.specs.Views.{thing_of, world_of};
ghost use Rattle.cx_replay.specs.Knowing.{is_on, acquire, is_free, IsLatest, Holds, Notes, Noted};

use crate::making::can_do;
use crate::objects::{ObjectNow, can_change};
use crate::runner::RunnerNow;
use cx_items::{Control, Form, Wanted};
use cx_machine::{Entry, Op};
use cx_names::{ObjectNo, Reply, ThreadNo};
use cx_scene::Plan;

/// What is known of whether a thread is enabled, since it was last tried. It is lost when the thread makes a
/// step.
#[derive(Clone, Copy)]
pub enum Known {
    /// Nothing.
    Nothing,
    /// That it is, or isn't, as long as this object has had so many changes.
    While(ObjectNo, u32, bool),
    /// That it is once this thread has ended.
    Awaits(ThreadNo),
    /// That it is where this semaphore can be acquired, as each thread that waits for it.
    Acquires(ObjectNo),
    /// That it never is again.
    Over,
}

impl Known {
    /// Whether the thread can make an item, where that is known.
    pub fn answer(
        self,
        plan: &Plan,
        objects: &[ObjectNow],
        runners: &[Option<RunnerNow>],
    ) -> Option<bool>
        ensures { IfSome result (λ can. (t : ℕ) (fs : _) → Holds (scene_of plan.now) (world_of (scene_of plan.now) objects.now runners.now) t fs self → can ≡ is_some (first_made (scene_of plan.now) (world_of (scene_of plan.now) objects.now runners.now) t fs)) }
    {
        match self {
            Known::Nothing => None,
            Known::While(o, changes, can) => match objects.get(o.0 as usize) {
                Some(object) => {
                    if object.changes == changes {
                        Some(can)
                    } else {
                        None
                    }
                }
                None => None,
            },
            Known::Awaits(u) => Some(can_do(plan, runners, Control::Join(u))),
            Known::Acquires(o) => Some(is_free(objects, o)),
            Known::Over => Some(false),
        }
    }
}

/// A semaphore, and whether it can be acquired now.
#[derive(Clone, Copy)]
pub struct Latest {
    pub semaphore: ObjectNo,
    pub is_free: bool,
}

/// Whether the semaphore can be acquired now. `latest` is what was found of the one that was tried last.
pub fn is_free_by(objects: &[ObjectNow], o: ObjectNo, latest: &mut Option<Latest>) -> bool
    requires { IsLatest (map thing_of objects.now) latest.old }
    ensures free { result ≡ is_free (slice_get (map thing_of objects.now) o.0) }
    ensures latest { IsLatest (map thing_of objects.now) latest.new }
{
    match *latest {
        Some(last) => {
            if last.semaphore.0 == o.0 {
                return last.is_free;
            }
        }
        None => {}
    }
    let is_free = is_free(objects, o);
    *latest = Some(Latest {
        semaphore: o,
        is_free,
    });
    is_free
}

/// Whether the semaphore can be acquired now, by whichever thread.
#[tactic(auto, using(crate::proofs::StillKnown::free_is))]
fn is_free(objects: &[ObjectNow], o: ObjectNo) -> bool
    ensures { result ≡ is_free (slice_get (map thing_of objects.now) o.0) }
{
    let acquired = Entry {
        by: ThreadNo(0),
        op: Op::Acquire,
        a: 0,
        b: 0,
        reply: Reply::Ok,
    };
    can_change(objects, o, &acquired)
}

/// Whether the form is of an act on object `o`.
fn is_on(o: ObjectNo, form: &Form) -> bool
    ensures { result ≡ is_on o form.now }
{
    match form {
        Form::Change(p, ..) => p.0 == o.0,
        Form::Look(p, ..) => p.0 == o.0,
        Form::Begin(p) => p.0 == o.0,
        _ => false,
    }
}

/// Whether each of these forms is of an act on object `o`.
fn are_on(o: ObjectNo, forms: &[Form]) -> bool
    ensures { result ≡ list_all (is_on o) forms.now }
{
    forms.iter().all(|form| is_on(o, form))
}

/// What is known of a thread that may make items of these forms, and can make one or not: something where all
/// are on object `o`.
fn note_at(objects: &[ObjectNow], o: ObjectNo, forms: &[Form], can: bool) -> Known
    ensures { Notes (map thing_of objects.now) forms.now can result }
{
    if !are_on(o, forms) {
        return Known::Nothing;
    }
    match objects.get(o.0 as usize) {
        Some(object) => Known::While(o, object.changes, can),
        None => Known::Nothing,
    }
}

/// The semaphore that the only form acquires, where it does.
fn acquired(forms: &[Form]) -> Option<ObjectNo>
    ensures { IfSome result (λ o. forms.now ≡ acquire o ∷ []) }
{
    match forms {
        [Form::Change(o, Op::Acquire, 0, 0, Wanted::Just(Reply::Ok))] => Some(*o),
        _ => None,
    }
}

/// What is known of a thread that may make items of these forms, and can make one or not.
fn note_forms(objects: &[ObjectNow], forms: &[Form], can: bool) -> Known
    ensures { Notes (map thing_of objects.now) forms.now can result }
{
    match acquired(forms) {
        Some(o) => return Known::Acquires(o),
        None => {}
    }
    match forms {
        [] => Known::Over,
        [Form::Does(Control::Join(u))] => Known::Awaits(*u),
        [Form::Change(o, ..), ..] => note_at(objects, *o, forms, can),
        [Form::Look(o, ..), ..] => note_at(objects, *o, forms, can),
        [Form::Begin(o), ..] => note_at(objects, *o, forms, can),
        _ => Known::Nothing,
    }
}

/// What is known of a thread that was tried: what it may make, and whether it can make it.
pub fn note(objects: &[ObjectNow], runner: &Option<RunnerNow>, forms: &[Form], can: bool) -> Known
    ensures { Noted (map thing_of objects.now) runner.now forms.now can result }
{
    match runner {
        Some(_) => note_forms(objects, forms, can),
        None => Known::Nothing,
    }
}

/// What is known of a thread whose step was tried, with these forms: nothing where the step was made.
pub fn note_tried(
    objects: &[ObjectNow],
    runner: &Option<RunnerNow>,
    forms: &[Form],
    made: bool,
) -> Known
    ensures made { made ≡ true → result ≡ Nothing }
    ensures not_made { made ≡ false → Noted (map thing_of objects.now) runner.now forms.now false result }
{
    if made {
        return Known::Nothing;
    }
    note(objects, runner, forms, false)
}
