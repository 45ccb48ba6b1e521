//! Sources.
ghost use Rattle.std.specs.Prelude.{◌≡◌, ◌≤◌, ◌<◌, ◌+◌, ◌^◌, ℕ, None};
ghost use Rattle.cx_names.specs.declared.Reply.TheVariants as replies;
ghost use Rattle.cx_machine.specs.declared.kind.Op.TheVariants as ops;
ghost use Rattle.cx_machine.specs.Stop.{Stop};
ghost use Rattle.cx_turn.specs.declared.view.View.{View};
ghost use Rattle.cx_turn.specs.Views.{less_share, note_right};
ghost use Rattle.cx_stop.specs.Stops.{IsStopPass, IsSource, IsSourceWith, StopDid};

use crate::action::Action;
use crate::pass::{StopPass, StopSource};
use crate::state::StopState;
use cx_machine::Op;
use cx_turn::Note;
use std::mem;
use std::sync::Wait;

// One more.
fn next(held: u32) -> u32
    requires { held < 2 ^ 31 }
    ensures { result ≡ held + 1 }
{
    held + 1
}

// One less.
fn one_less(held: u32) -> u32
    requires { 1 ≤ held }
    ensures { result + 1 ≡ held }
{
    held - 1
}

impl<C: Action> StopState<C> {
    /// Splits off `n` of the sources, which `src` then holds no more.
    pub fn split_source(&self, src: &mut StopSource, n: u32) -> StopSource
        requires source { IsSource self.now src.old }
        requires held { n ≤ src.old.note.share }
        ensures sources { IsSource self.now src.new × IsSource self.now result }
        ensures shares { (src.new.note.share + n ≡ src.old.note.share) × (result.note.share ≡ n) }
        ensures rest { (v : View Stop) → IsSourceWith self.now src.old v → IsSourceWith self.now src.new (less_share v n) }
        ensures part { (v : View Stop) → IsSourceWith self.now src.old v → IsSourceWith self.now result (note_right v 0 n None) }
    {
        StopSource {
            note: self.turn.part(&mut src.note, n),
        }
    }

    /// One source more [stopsource.cons], which `src` then holds too.
    pub fn another<R: Wait>(&self, rt: &R, pass: &mut StopPass, src: &mut StopSource) -> u32
        requires pass { IsStopPass self.now pass.old }
        requires source { IsSource self.now src.old × (1 ≤ src.old.note.share) }
        requires left { 1 ≤ pass.old.pass.left }
        ensures idle { IsStopPass self.now pass.new }
        ensures left { pass.new.pass.left + 1 ≡ pass.old.pass.left }
        ensures tag { pass.new.next_tag ≡ pass.old.next_tag }
        ensures source { IsSource self.now src.new × (src.new.note.share ≡ src.old.note.share + 1) }
        ensures did { StopDid self.now pass.old pass.new ops.Another 0 replies.Ok result }
    {
        let held = src.held();
        let note = mem::replace(&mut src.note, Note::blank());
        self.turn.take_in(&mut pass.pass, note);
        let at = self.make(rt, &mut pass.pass, Op::Another, 0, false);
        src.note = self.turn.note(&mut pass.pass, next(held), 0, None);
        at
    }

    /// One source less [stopsource.cons]. Once there is none, and no stop was requested, none ever is.
    pub fn drop_one<R: Wait>(&self, rt: &R, pass: &mut StopPass, src: &mut StopSource) -> u32
        requires pass { IsStopPass self.now pass.old }
        requires source { IsSource self.now src.old × (1 ≤ src.old.note.share) }
        requires left { 1 ≤ pass.old.pass.left }
        ensures idle { IsStopPass self.now pass.new }
        ensures left { pass.new.pass.left + 1 ≡ pass.old.pass.left }
        ensures tag { pass.new.next_tag ≡ pass.old.next_tag }
        ensures source { IsSource self.now src.new × (src.new.note.share + 1 ≡ src.old.note.share) }
        ensures did { StopDid self.now pass.old pass.new ops.Drop 0 replies.Ok result }
    {
        let held = src.held();
        let note = mem::replace(&mut src.note, Note::blank());
        self.turn.take_in(&mut pass.pass, note);
        let at = self.make(rt, &mut pass.pass, Op::Drop, 0, false);
        src.note = self.turn.note(&mut pass.pass, one_less(held), 0, None);
        at
    }
}
