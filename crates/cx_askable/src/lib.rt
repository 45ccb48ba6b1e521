//! Each scenario that a text means is one whose threads ask only what is served.
//!
//! The definitions stand in `specs/` of `cx_asks`, `cx_script` and here; the functions have a law of the definitions as their
//! contract, and no body.
#![tactic(auto)]

ghost use Rattle.cx_askable.specs.Laws.{ScriptIsAskable};

/// A scenario that a text means, whose objects and threads are of the kinds that threads are run on, is askable: its calls fit,
/// no thread is started twice, and no more is taken from a latch than it counts.
pub fn script_is_askable()
    ensures { ScriptIsAskable }
{}
