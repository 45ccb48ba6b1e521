//! What a thread asks of an object, and what no scenario asks.
//!
//! A thread's next forms are an ask: a change, a look, or whichever of the two the object's state allows. The definitions stand in
//! `specs/`: `Asks` has the tables of what each kind may be asked where a thread holds so much of it, `Forms` which ask the forms
//! are, `Scenes` the scenarios of which each call is fit, `Offers` what a thread is offered where it stands. The functions with no
//! body have a law of the definitions as their contract: with them each case that no scenario gives is shown impossible.
//!
//! A new kind adds its table to `Asks`, its replies to `Forms` and its calls to `Scenes`.
#![tactic(auto)]

mod ask;

ghost use Rattle.cx_asks.specs.Laws.{ChangesAnswer, LooksAnswer, OfferedIsServed, AsksTakeWithin, SharesAreLeft, StartsAreFirst, StartedMayBeJoined, ChangesAreFew};

pub use ask::{Ask, ask_of};

/// A change that is asked for and enabled is an item of one of the forms of the ask.
pub fn changes_answer()
    ensures { ChangesAnswer }
{}

/// A look that is asked for and shown is an item of one of the forms of the ask.
pub fn looks_answer()
    ensures { LooksAnswer }
{}

/// What a thread is offered wherever its text leads it is a start, a join, a reply, or an ask that is served by what the thread
/// keeps of the object.
pub fn offered_is_served()
    ensures { OfferedIsServed }
{}

/// What a thread takes from a latch, with what it is about to take, is within what its text takes.
pub fn asks_take_within()
    ensures { AsksTakeWithin }
{}

/// A latch counts as much as the texts of all threads take from it, so that each has its share.
pub fn shares_are_left()
    ensures { SharesAreLeft }
{}

/// A thread that main may start was not started before.
pub fn starts_are_first()
    ensures { StartsAreFirst }
{}

/// Main may join each thread that it has started and not joined.
pub fn started_may_be_joined()
    ensures { StartedMayBeJoined }
{}

/// A thread changes one object at most 61,440 times.
pub fn changes_are_few()
    ensures { ChangesAreFew }
{}
