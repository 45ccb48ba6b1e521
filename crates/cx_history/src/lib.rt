//! Records: what each thread did, item by item, and which of them are legal.
//!
//! The definitions stand in `specs/`: `Histories` has each object's history and how far each thread has seen it, `Legal` the legal
//! record, `Follows` the record that follows a scenario, `Flaw` the first flaw of one that isn't both, `IsRecord` the well-formed
//! record.
#![tactic(auto)]

mod flaw;
mod record;

ghost use Rattle.std.specs.Prelude.{◌≡◌, [], ◌∷◌, Some, None, true};
ghost use Rattle.cx_history.specs.Flaw.{first_flaw, FlawlessIsLegal, LegalIsFlawless, OneStepMore, CompletionIsKnown, CompletionStays, OneItemMore};
ghost use Rattle.cx_history.specs.Legal.{OneMoreStep, GreatestIsLast};

pub use flaw::{Cause, Flaw};
pub use record::{Items, List, Record, Threads};

/// A record of main alone, which does nothing, has no flaw.
pub fn empty_record()
    ensures { first_flaw (record { version = 1; threads = []; objects = []; callbacks = []; bodies = [] }) (record { version = 1; lists = Some [] ∷ [] }) ≡ None }
{}

/// One more change is one more step.
pub fn one_more_step()
    ensures { OneMoreStep }
{}

/// A change with the greatest position is the last of the sequence.
pub fn greatest_is_last()
    ensures { GreatestIsLast }
{}

/// A record without a flaw is legal and follows its text.
pub fn flawless_is_legal()
    ensures { FlawlessIsLegal }
{}

/// A record that is legal and follows its text has no flaw.
pub fn legal_is_flawless()
    ensures { LegalIsFlawless }
{}

/// A change at the next position that the machine allows keeps the record gapless and stepwise.
pub fn one_step_more()
    ensures { OneStepMore }
{}

/// Whether the last change so far leaves a barrier completing is known at once.
pub fn completion_is_known()
    ensures { CompletionIsKnown }
{}

/// And stays so.
pub fn completion_stays()
    ensures { CompletionStays }
{}

/// A list goes on by one item.
pub fn one_item_more()
    ensures { OneItemMore }
{}
