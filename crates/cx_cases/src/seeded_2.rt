//! Replays with a seed, each with its record.
ghost use Rattle.std.specs.Prelude.{◌≡◌, Some, [], ◌∷◌};
ghost use Rattle.cx_replay.specs.Schedule.{replay_in};
ghost use Rattle.cx_cases.specs.Ends.{ended, stuck};
ghost use Rattle.cx_cases.specs.Seeded2.{scene_seeded_0100, recorded_seeded_0100, scene_seeded_0112, recorded_seeded_0112, scene_seeded_0136, recorded_seeded_0136, scene_seeded_0137, recorded_seeded_0137};

/// Replays with a seed, each with its record.
pub fn seeded_2_hold()
    ensures seeded_0100 { replay_in 7 scene_seeded_0100 (Some 2) ≡ Some (stuck recorded_seeded_0100 (0 ∷ [])) }
    ensures seeded_0112 { replay_in 12 scene_seeded_0112 (Some 1) ≡ Some (ended recorded_seeded_0112) }
    ensures seeded_0136 { replay_in 22 scene_seeded_0136 (Some 1) ≡ Some (ended recorded_seeded_0136) }
    ensures seeded_0137 { replay_in 13 scene_seeded_0137 (Some 00000000000000000002) ≡ Some (ended recorded_seeded_0137) }
{}
