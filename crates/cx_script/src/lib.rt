//! What the text of a scenario means, and its first fault.
//!
//! The definitions stand in `specs/`: `Earlier` has what the earlier lines say, `Faults` has a predicate for each kind of fault
//! and the first fault of a text, `Walk` has the same line by line, `Script` has the scenario with its names that a text without
//! a fault means and its canonical text, and `Numbered` has a scenario by numbers.
//! No text is processed here. The functions of this crate have no body: the contract of each is a law of the definitions.
#![tactic(auto)]

mod declared;

ghost use Rattle.cx_script.specs.Laws.{FirstFaultIsLeast, NoFaultIsClean, WalkFindsFirst, WrittenFrontIsOne, WrittenIsFront, WrittenIsRead, WrittenIsShort, WrittenMeansOne, WrittenSaysAgain};
ghost use Rattle.cx_script.specs.InOrder.{InOrderIsScenario};
ghost use Rattle.cx_script.specs.WellFormed.{ScriptIsScene};

pub use declared::Declared;

/// The first fault of a text is of the least line that has one, and of the first kind that holds there.
pub fn first_fault_is_least()
    ensures { FirstFaultIsLeast }
{}

/// A text with no first fault has no fault on any line, nor at its end.
pub fn no_fault_is_clean()
    ensures { NoFaultIsClean }
{}

/// Reading line by line finds the first fault.
pub fn walk_finds_first()
    ensures { WalkFindsFirst }
{}

/// A scenario that a text means is within its limits, and each call fits its thread and what it names.
pub fn script_is_scene()
    ensures { ScriptIsScene }
{}

/// The canonical text of a scenario that a text means has less than 8 MiB.
pub fn written_is_short()
    ensures { WrittenIsShort }
{}

/// The lines of the canonical text of a scenario say that scenario.
pub fn written_says_again()
    ensures { WrittenSaysAgain }
{}

/// The canonical text of a scenario is read as that scenario, within any limit that the text keeps.
pub fn written_is_read()
    ensures { WrittenIsRead }
{}

/// Two scenarios with the same canonical text are one.
pub fn written_means_one()
    ensures { WrittenMeansOne }
{}

/// Where a text begins with the canonical text of a scenario, that scenario's lines are its front: the first `end` of `main` is theirs.
pub fn written_is_front()
    ensures { WrittenIsFront }
{}

/// Where such a text is cut so that the front has the scenario's lines and the rest its own, the front is the canonical text to the byte.
pub fn written_front_is_one()
    ensures { WrittenFrontIsOne }
{}

/// Lines in the order of a canonical text, whose declarations have no fault and whose calls fit them, are a scenario: the text of the
/// lines means what they say, which is the declarations and the calls of each body.
pub fn in_order_is_scenario()
    ensures { InOrderIsScenario }
{}
