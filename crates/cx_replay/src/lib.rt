//! The replay: one step at a time, by one of the threads that are enabled.
#![tactic(auto)]

mod acts;
mod draws;
mod knowing;
mod making;
mod moves;
mod objects;
mod of_scenario;
mod outcome;
mod runner;
mod turning;

ghost use Rattle.std.specs.Prelude.{◌≡◌, [], ◌∷◌, Some, None};
ghost use Rattle.cx_scene.specs.declared.declared.Thread.TheVariants as threads;
ghost use Rattle.cx_replay.specs.SplitMix.{next_seed, word};
ghost use Rattle.cx_replay.specs.Schedule.{replay_in, ReplayedInTurns, EachTurnIsLegal, EachTurnFollows, OneReplay, ReplayIsLegal, ReplayFollows, StuckFollowsSoFar};

pub use of_scenario::replay;
pub use outcome::{Replayed, replay_plan};

/// The first words for seed 0.
pub fn first_words()
    ensures first { word (next_seed 0) ≡ 0xe220a8397b1dcdaf }
    ensures second { word (next_seed (next_seed 0)) ≡ 0x6e789e6aa1b965f4 }
    ensures third { word (next_seed (next_seed (next_seed 0))) ≡ 0x06c45d188009454f }
{}

/// Main alone with an empty body has ended at its start.
pub fn nothing_to_do()
    ensures { replay_in 0 (record { version = 1; threads = threads.Plain ∷ []; objects = []; callbacks = []; bodies = [] ∷ [] }) None ≡ Some (record { recorded = record { version = 1; lists = Some [] ∷ [] }; live = [] }) }
{}

/// What so many turns lead to, with no turn left, is what is replayed.
pub fn replayed_in_turns()
    ensures { ReplayedInTurns }
{}

/// At each turn the changes on each object are a legal history without a gap.
pub fn each_turn_is_legal()
    ensures { EachTurnIsLegal }
{}

/// At each turn each list is one that the text of its thread allows so far.
pub fn each_turn_follows()
    ensures { EachTurnFollows }
{}

/// There is one replay of a scenario and a seed.
pub fn one_replay()
    ensures { OneReplay }
{}

/// The record of a replay is legal, also of one that is stuck.
pub fn replay_is_legal()
    ensures { ReplayIsLegal }
{}

/// The record of a replay that has ended follows the text.
pub fn replay_follows()
    ensures { ReplayFollows }
{}

/// Each list of a replay, also of one that is stuck, is one that the text of its thread allows so far.
pub fn stuck_follows_so_far()
    ensures { StuckFollowsSoFar }
{}
