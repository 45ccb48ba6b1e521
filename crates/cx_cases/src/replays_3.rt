//! Replays without a seed, each with its record.
ghost use Rattle.std.specs.Prelude.{◌≡◌, Some, None};
ghost use Rattle.cx_replay.specs.Schedule.{replay_in};
ghost use Rattle.cx_cases.specs.Ends.{ended};
ghost use Rattle.cx_cases.specs.Replays3.{scene_replay_0120, recorded_replay_0120, scene_replay_0122, recorded_replay_0122, scene_replay_0126, recorded_replay_0126, scene_replay_0128, recorded_replay_0128, scene_replay_0137, recorded_replay_0137, scene_replay_0148, recorded_replay_0148};

/// Replays without a seed, each with its record.
pub fn replays_3_hold()
    ensures replay_0120 { replay_in 17 scene_replay_0120 None ≡ Some (ended recorded_replay_0120) }
    ensures replay_0122 { replay_in 20 scene_replay_0122 None ≡ Some (ended recorded_replay_0122) }
    ensures replay_0126 { replay_in 16 scene_replay_0126 None ≡ Some (ended recorded_replay_0126) }
    ensures replay_0128 { replay_in 16 scene_replay_0128 None ≡ Some (ended recorded_replay_0128) }
    ensures replay_0137 { replay_in 8 scene_replay_0137 None ≡ Some (ended recorded_replay_0137) }
    ensures replay_0148 { replay_in 15 scene_replay_0148 None ≡ Some (ended recorded_replay_0148) }
{}
