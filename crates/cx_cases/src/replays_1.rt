//! Replays without a seed, each with its record.
ghost use Rattle.std.specs.Prelude.{◌≡◌, Some, None, [], ◌∷◌};
ghost use Rattle.cx_replay.specs.Schedule.{replay_in};
ghost use Rattle.cx_cases.specs.Ends.{ended, stuck};
ghost use Rattle.cx_cases.specs.Replays1.{scene_replay_0002, recorded_replay_0002, scene_replay_0003, recorded_replay_0003, scene_replay_0013, recorded_replay_0013, scene_replay_0014, recorded_replay_0014, scene_replay_0021, recorded_replay_0021, scene_replay_0024, recorded_replay_0024, scene_replay_0027, recorded_replay_0027, scene_replay_0028, recorded_replay_0028, scene_replay_0031, recorded_replay_0031, scene_replay_0035, recorded_replay_0035};

/// Replays without a seed, each with its record.
pub fn replays_1_hold()
    ensures replay_0002 { replay_in 8 scene_replay_0002 None ≡ Some (ended recorded_replay_0002) }
    ensures replay_0003 { replay_in 23 scene_replay_0003 None ≡ Some (ended recorded_replay_0003) }
    ensures replay_0013 { replay_in 13 scene_replay_0013 None ≡ Some (ended recorded_replay_0013) }
    ensures replay_0014 { replay_in 4 scene_replay_0014 None ≡ Some (ended recorded_replay_0014) }
    ensures replay_0021 { replay_in 9 scene_replay_0021 None ≡ Some (stuck recorded_replay_0021 (0 ∷ 4 ∷ [])) }
    ensures replay_0024 { replay_in 22 scene_replay_0024 None ≡ Some (ended recorded_replay_0024) }
    ensures replay_0027 { replay_in 11 scene_replay_0027 None ≡ Some (ended recorded_replay_0027) }
    ensures replay_0028 { replay_in 24 scene_replay_0028 None ≡ Some (ended recorded_replay_0028) }
    ensures replay_0031 { replay_in 20 scene_replay_0031 None ≡ Some (ended recorded_replay_0031) }
    ensures replay_0035 { replay_in 6 scene_replay_0035 None ≡ Some (stuck recorded_replay_0035 (0 ∷ 2 ∷ [])) }
{}
