//! Replays without a seed, each with its record.
ghost use Rattle.std.specs.Prelude.{◌≡◌, Some, None, [], ◌∷◌};
ghost use Rattle.cx_replay.specs.Schedule.{replay_in};
ghost use Rattle.cx_cases.specs.Ends.{ended, stuck};
ghost use Rattle.cx_cases.specs.Replays2.{scene_replay_0036, recorded_replay_0036, scene_replay_0047, recorded_replay_0047, scene_replay_0053, recorded_replay_0053, scene_replay_0054, recorded_replay_0054, scene_replay_0086, recorded_replay_0086, scene_replay_0089, recorded_replay_0089, scene_replay_0094, recorded_replay_0094, scene_replay_0101, recorded_replay_0101, scene_replay_0109, recorded_replay_0109, scene_replay_0110, recorded_replay_0110};

/// Replays without a seed, each with its record.
pub fn replays_2_hold()
    ensures replay_0036 { replay_in 12 scene_replay_0036 None ≡ Some (stuck recorded_replay_0036 (0 ∷ 1 ∷ 2 ∷ [])) }
    ensures replay_0047 { replay_in 6 scene_replay_0047 None ≡ Some (stuck recorded_replay_0047 (0 ∷ [])) }
    ensures replay_0053 { replay_in 19 scene_replay_0053 None ≡ Some (ended recorded_replay_0053) }
    ensures replay_0054 { replay_in 16 scene_replay_0054 None ≡ Some (stuck recorded_replay_0054 (0 ∷ 1 ∷ 3 ∷ [])) }
    ensures replay_0086 { replay_in 23 scene_replay_0086 None ≡ Some (ended recorded_replay_0086) }
    ensures replay_0089 { replay_in 15 scene_replay_0089 None ≡ Some (stuck recorded_replay_0089 (0 ∷ 2 ∷ 4 ∷ [])) }
    ensures replay_0094 { replay_in 16 scene_replay_0094 None ≡ Some (ended recorded_replay_0094) }
    ensures replay_0101 { replay_in 10 scene_replay_0101 None ≡ Some (ended recorded_replay_0101) }
    ensures replay_0109 { replay_in 19 scene_replay_0109 None ≡ Some (ended recorded_replay_0109) }
    ensures replay_0110 { replay_in 14 scene_replay_0110 None ≡ Some (ended recorded_replay_0110) }
{}
