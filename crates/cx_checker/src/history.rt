use crate::by_object::{Change, Changes};
use crate::placing::{Slot, bad_step, completions, gap, only_at, place};
use crate::showing::verdicts_on;
use cx_machine::{Kind, Look};
use cx_names::NoMemory;
use std::alloc::Global;
use std::marker::Model;

/// The changes of an object, in order of thread and item, placed by their positions.
#[derive(Drop)]
pub struct History {
    changes: Vec<Change>,
    slots: Vec<Slot>,
}

impl Model for History {
    ghost use Rattle.std.specs.Prelude.{List, map};
    ghost use Rattle.cx_history.specs.Histories.{Placed};
    ghost use Rattle.cx_checker.specs.Views.{placed_of};
    ghost use Rattle.cx_checker.specs.Placing.{IsPlacing};

    ghost Value = { List Placed };

    ghost view = { λ h. map placed_of h.changes.items };

    ghost invariant = { λ h. IsPlacing (map placed_of h.changes.items) h.slots.items };
}

impl History {
    ghost use Rattle.std.specs.Prelude.{◌≡◌, ◌<◌, length, filter, map, None, option_map, IfOk};
    ghost use Rattle.cx_machine.specs.Machine.{opening};
    ghost use Rattle.cx_history.specs.Histories.{in_order, is_at};
    ghost use Rattle.cx_history.specs.Flaw.{gap_from, bad_step_from};
    ghost use Rattle.cx_checker.specs.Views.{placed_of};
    ghost use Rattle.cx_checker.specs.Placing.{IsOnly};
    ghost use Rattle.cx_checker.specs.Marks.{AreCompletions};
    ghost use Rattle.cx_checker.specs.Looks.{AreVerdicts};

    /// Places the changes of an object, which are in order of thread and item.
    pub fn of(alloc: Global, changes: Changes) -> Result<History, NoMemory>
        ensures { IfOk result (λ h. h ≡ map placed_of changes.changes.items) }
    {
        let changes = changes.changes;
        let slots = place(alloc, &changes)?;
        Ok(History { changes, slots })
    }

    /// How many changes there are.
    pub fn len(&self) -> usize
        ensures { result ≡ length self.now }
    {
        self.changes.len()
    }

    /// The change at a position that exactly one holds.
    pub fn only_at(&self, k: usize) -> Option<Change>
        requires { k < length self.now }
        ensures { IsOnly (option_map placed_of result) (filter (is_at k) self.now) }
    {
        only_at(&self.changes, &self.slots, k)
    }

    /// The change at which the positions aren't those from 0 on: the second holder of one that is
    /// held twice, or the first of the next position after one that is missing.
    pub fn gap(&self) -> Option<Change>
        ensures { option_map placed_of result ≡ gap_from 0 (in_order self.now) }
    {
        gap(&self.changes, &self.slots)
    }

    /// The first change that the machine of this kind doesn't allow, where there is no gap.
    pub fn bad_step(&self, alloc: Global, kind: Kind) -> Result<Option<Change>, NoMemory>
        requires gapless { gap_from 0 (in_order self.now) ≡ None }
        ensures { IfOk result (λ c. option_map placed_of c ≡ bad_step_from (opening kind) (in_order self.now)) }
    {
        bad_step(alloc, kind, &self.changes, &self.slots)
    }

    /// For each position from 0 on whether the change there leaves a barrier completing, up to the
    /// first that isn't held once or that the machine of this kind doesn't allow.
    pub fn completions(&self, alloc: Global, kind: Kind) -> Result<Vec<bool>, NoMemory>
        ensures { IfOk result (λ v. AreCompletions (opening kind) self.now v.items) }
    {
        completions(alloc, kind, &self.changes, &self.slots)
    }

    /// The verdicts on looks at the object of this kind, where there is no gap and each change is
    /// allowed.
    pub fn verdicts_on(
        &self,
        alloc: Global,
        kind: Kind,
        looks: &[Look],
    ) -> Result<Vec<bool>, NoMemory>
        requires gapless { gap_from 0 (in_order self.now) ≡ None }
        requires stepwise { bad_step_from (opening kind) (in_order self.now) ≡ None }
        ensures { IfOk result (λ v. AreVerdicts kind self.now looks.now v.items) }
    {
        verdicts_on(alloc, kind, &self.changes, &self.slots, looks)
    }
}
