//! Every schedule ends: a number that falls with each item of a thread.
#![tactic(auto)]

ghost use Rattle.cx_weights.specs.Ends.{SoFarCanEnd};
ghost use Rattle.cx_weights.specs.Laws.{EachItemWeighs, RequestedIsLighter, EachChangeSettles, EachLookIsTrue, EachStepWeighs, ScenarioIsLight, ScriptIsSmall, EveryScheduleEnds};

/// Each item that is allowed where a thread stands makes what it may still do smaller.
pub fn each_item_weighs()
    ensures { EachItemWeighs }
{}

/// A stop that is requested makes nothing heavier.
pub fn requested_is_lighter()
    ensures { RequestedIsLighter }
{}

/// A change takes from its object's reserve what it earns, and puts in at most what it pays.
pub fn each_change_settles()
    ensures { EachChangeSettles }
{}

/// A look that is shown says truly whether a stop is requested.
pub fn each_look_is_true()
    ensures { EachLookIsTrue }
{}

/// Each item that a thread makes leaves less to be done by all.
pub fn each_step_weighs()
    ensures { EachStepWeighs }
{}

/// All threads of a scenario together make fewer than 2^28 items.
pub fn scenario_is_light()
    ensures { ScenarioIsLight }
{}

/// Each scenario that a text means is small.
pub fn script_is_small()
    ensures { ScriptIsSmall }
{}

/// Every schedule ends: a run of n items leaves at least n less to be done, and n is below 2^28.
pub fn every_schedule_ends()
    ensures { EveryScheduleEnds }
{}

/// A list that the text of its thread allows so far is a prefix of one that it allows whole.
pub fn so_far_can_end()
    ensures { SoFarCanEnd }
{}
