//! Where a thread stands in its body, and what it has made.
ghost use Rattle.std.specs.Prelude.{◌≡◌, ◌++◌, ◌∷◌, [], ℕ, true, false, IsTrue, IfOk, OnOk};
ghost use Rattle.cx_scene.specs.Scene.{scene_of};
ghost use Rattle.cx_history.specs.IsRecord.{is_item};
ghost use Rattle.cx_asks.specs.Forms.{is_of_one};
ghost use Rattle.cx_asks.specs.Scenes.{IsAskable};
ghost use Rattle.cx_work.specs.Accesses.{AreMadeAs, AreAccesses, HoldNothing, objects_of};

use crate::acting::{acted, leaves_completing, reply_in};
use crate::gate::Gate;
use cx_items::{Form, Item, Local};
use cx_kinds::Access;
use cx_names::{NoMemory, ThreadNo};
use cx_scene::Plan;
use std::alloc::Global;
use std::sync::Wait;

// No task has more forms.
const FORMS: usize = 3;

/// Where a thread stands in its body, its accesses, and the list of the items that it has made.
#[derive(Drop)]
pub struct Standing {
    /// The thread's number.
    pub thread: ThreadNo,
    /// What the thread has of each object, by its number.
    pub accesses: Vec<Access>,
    /// What the thread has made so far, in its order.
    pub list: Vec<Item>,
    pub(crate) local: Local,
    pub(crate) forms: Vec<Form>,
    pub(crate) replies: u32,
    pub(crate) is_in_call: bool,
}

impl Standing {
    ghost use Rattle.cx_work.specs.Acting.{LeavesIt};
    ghost use Rattle.cx_work.specs.Reserves.{AreEnough};
    ghost use Rattle.cx_work.specs.Steps.{StepsOn, is_made_alone, begins_control, forms_at, IsNext, IsAt, HasMade};

    /// Thread `thread` of the scenario at the start of its body [thread.thread.constr], with these accesses,
    /// which hold nothing and suffice for its text, and with a list for `room` items: `room_for` tells how
    /// many to have. `NoMemory` where memory doesn't suffice.
    pub fn start(
        alloc: Global,
        plan: &Plan,
        thread: ThreadNo,
        accesses: Vec<Access>,
        room: usize,
    ) -> Result<Standing, NoMemory>
        requires enough { AreEnough (scene_of plan.now) thread.0 accesses.items [] }
        ensures at { IfOk result (λ r. IsAt (scene_of plan.now) r) }
        ensures list { IfOk result (λ r. r.list.items ≡ []) }
        ensures accesses { IfOk result (λ r. (r.thread ≡ thread) × (r.accesses ≡ accesses)) }
    {
        Ok(Standing {
            thread,
            accesses,
            list: Vec::with_capacity(alloc, room)?,
            local: Local::start(alloc, plan, thread)?,
            forms: Vec::with_capacity(alloc, FORMS)?,
            replies: 0,
            is_in_call: false,
        })
    }

    /// Finds what the thread's next item may be, as `forms` then tells, and whether there is one: none where
    /// its body has ended. `plan` is the scenario in whose body the thread stands. After `NoMemory` the thread
    /// makes no further item.
    pub fn next(&mut self, plan: &Plan) -> Result<bool, NoMemory>
        ensures same { (self.new.thread ≡ self.old.thread) × (self.new.accesses ≡ self.old.accesses) × (self.new.list ≡ self.old.list) × (self.new.local ≡ self.old.local) }
        ensures next { IfOk result (λ there. IsNext (scene_of plan.now) self.old.thread.0 self.old.local there self.new.forms.items) }
    {
        if self.local.is_ended(plan, self.thread) {
            return Ok(false);
        }
        self.local.offered_now(plan, self.thread, &mut self.forms)?;
        Ok(true)
    }

    /// The forms of the thread's next item, as `next` found them last.
    pub fn forms(&self) -> &[Form]
        ensures { result.now ≡ self.now.forms.items }
    {
        self.forms.as_slice()
    }

    /// Makes the item that is next by the object's own call, puts it into the list, and gives it. May wait
    /// for other threads where that call may.
    ///
    /// `plan` is the scenario to whose objects the thread has its accesses, and the forms are those of what is
    /// next where the thread stands, no start and no join. `NoMemory` where memory doesn't suffice. The thread
    /// makes no further item then.
    pub fn make<R: Wait>(&mut self, rt: &R, plan: &Plan) -> Result<Item, NoMemory>
        requires accesses { AreAccesses (objects_of self.old.accesses.items) self.old.thread.0 self.old.accesses.items }
        requires made { AreMadeAs (scene_of plan.now).objects (objects_of self.old.accesses.items) }
        requires asks { IsAskable (scene_of plan.now) }
        requires at { IsAt (scene_of plan.now) self.old }
        requires next { IsNext (scene_of plan.now) self.old.thread.0 self.old.local true self.old.forms.items }
        requires alone { begins_control self.old.forms.items ≡ false }
        ensures thread { self.new.thread ≡ self.old.thread }
        ensures accesses { AreAccesses (objects_of self.old.accesses.items) self.new.thread.0 self.new.accesses.items }
        ensures list { IfOk result (λ x. self.new.list.items ≡ self.old.list.items ++ x ∷ []) }
        ensures steps { IfOk result (λ x. StepsOn self.old.accesses.items self.new.accesses.items x) }
        ensures alone { IfOk result (λ x. is_made_alone x ≡ true) }
        ensures at { OnOk result (IsAt (scene_of plan.now) self.new) }
    {
        let item = self.made(rt, plan);
        let completing = leaves_completing(self.accesses.as_slice(), &item);
        self.put(plan, completing, item)?;
        Ok(item)
    }

    /// Makes the item that is next, which isn't in the list yet.
    fn made<R: Wait>(&mut self, rt: &R, plan: &Plan) -> Item
        requires accesses { AreAccesses (objects_of self.old.accesses.items) self.old.thread.0 self.old.accesses.items }
        requires made { AreMadeAs (scene_of plan.now).objects (objects_of self.old.accesses.items) }
        requires asks { IsAskable (scene_of plan.now) }
        requires at { IsAt (scene_of plan.now) self.old }
        requires next { IsNext (scene_of plan.now) self.old.thread.0 self.old.local true self.old.forms.items }
        requires alone { begins_control self.old.forms.items ≡ false }
        ensures same { (self.new.thread ≡ self.old.thread) × (self.new.list ≡ self.old.list) × (self.new.local ≡ self.old.local) }
        ensures accesses { AreAccesses (objects_of self.old.accesses.items) self.new.thread.0 self.new.accesses.items }
        ensures steps { StepsOn self.old.accesses.items self.new.accesses.items result }
        ensures alone { is_made_alone result ≡ true }
        ensures enough { AreEnough (scene_of plan.now) self.old.thread.0 self.new.accesses.items (self.old.list.items ++ result ∷ []) }
        ensures fits { is_of_one (scene_of plan.now) (forms_at (scene_of plan.now) self.old.thread.0 self.old.local) result ≡ true }
        ensures formed { IsTrue (is_item (scene_of plan.now) self.old.thread.0 result) }
    {
        match reply_in(self.forms.as_slice()) {
            Some(reply) => Item::Said(reply),
            None => acted(rt, self.forms.as_slice(), &mut self.accesses),
        }
    }

    /// Puts an item into the list that was made elsewhere, as main's starts and joins
    /// [thread.thread.constr, thread.thread.member].
    ///
    /// `item` is a start or a join of a form that the text offers where the thread stands, and one that the
    /// thread may have in a record; `plan` is the scenario. After `NoMemory` the thread makes no further item.
    pub fn take(&mut self, plan: &Plan, item: Item) -> Result<(), NoMemory>
        requires at { IsAt (scene_of plan.now) self.old }
        requires fits { is_of_one (scene_of plan.now) (forms_at (scene_of plan.now) self.old.thread.0 self.old.local) item ≡ true }
        requires formed { IsTrue (is_item (scene_of plan.now) self.old.thread.0 item) }
        requires control { is_made_alone item ≡ false }
        ensures same { (self.new.thread ≡ self.old.thread) × (self.new.accesses ≡ self.old.accesses) }
        ensures list { OnOk result (self.new.list.items ≡ self.old.list.items ++ item ∷ []) }
        ensures at { OnOk result (IsAt (scene_of plan.now) self.new) }
    {
        self.put(plan, false, item)
    }

    /// Puts an item into the list that the accesses have made, after which a completion is due or not.
    fn put(&mut self, plan: &Plan, completing: bool, item: Item) -> Result<(), NoMemory>
        requires at { HasMade (scene_of plan.now) self.old.thread.0 self.old.accesses.items self.old.list.items item self.old.local }
        requires fits { is_of_one (scene_of plan.now) (forms_at (scene_of plan.now) self.old.thread.0 self.old.local) item ≡ true }
        requires formed { IsTrue (is_item (scene_of plan.now) self.old.thread.0 item) }
        requires due { LeavesIt (scene_of plan.now) self.old.accesses.items item completing }
        ensures same { (self.new.thread ≡ self.old.thread) × (self.new.accesses ≡ self.old.accesses) }
        ensures list { OnOk result (self.new.list.items ≡ self.old.list.items ++ item ∷ []) }
        ensures at { OnOk result (IsAt (scene_of plan.now) self.new) }
    {
        let moved = self.local.after_item(plan, self.thread, completing, &item)?;
        let _ = moved;
        self.list.push(item)?;
        Ok(())
    }

    /// Calls the gate where the next item is the first of a call of the text. Waits as long as the gate
    /// does.
    pub fn enter<G: Gate>(&mut self, plan: &Plan, gate: &G)
        ensures { (self.new.thread ≡ self.old.thread) × (self.new.accesses ≡ self.old.accesses) × (self.new.list ≡ self.old.list) × (self.new.local ≡ self.old.local) }
    {
        if !self.is_in_call && (self.replies as usize) < plan.body(self.thread).len() {
            self.is_in_call = true;
            gate.before(self.thread, self.replies);
        }
    }

    /// Calls the gate where `item`, the last one made, is the reply of a call. Waits as long as the gate
    /// does.
    pub fn leave<G: Gate>(&mut self, gate: &G, item: &Item)
        ensures { (self.new.thread ≡ self.old.thread) × (self.new.accesses ≡ self.old.accesses) × (self.new.list ≡ self.old.list) × (self.new.local ≡ self.old.local) }
    {
        if let Item::Said(_) = item {
            gate.after(self.thread, self.replies);
            self.replies = self.replies.saturating_add(1);
            self.is_in_call = false;
        }
    }

    /// Gives back what the thread holds of its objects, without an item, as far as its passes may still make
    /// changes [thread.mutex.requirements]. For a thread that makes no further item.
    pub fn give_up<R: Wait>(&mut self, rt: &R)
        requires { AreAccesses (objects_of self.old.accesses.items) self.old.thread.0 self.old.accesses.items }
        ensures thread { self.new.thread ≡ self.old.thread }
        ensures list { self.new.list ≡ self.old.list }
        ensures accesses { AreAccesses (objects_of self.old.accesses.items) self.old.thread.0 self.new.accesses.items }
        ensures free { HoldNothing self.new.accesses.items }
    {
        for i in 0..self.accesses.len() {
            self.accesses[i].give_up(rt);
        }
    }
}
