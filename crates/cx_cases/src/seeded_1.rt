//! Replays with a seed, each with its record.
ghost use Rattle.std.specs.Prelude.{◌≡◌, Some, [], ◌∷◌};
ghost use Rattle.cx_replay.specs.Schedule.{replay_in};
ghost use Rattle.cx_cases.specs.Ends.{ended, stuck};
ghost use Rattle.cx_cases.specs.Seeded1.{scene_seeded_0023, recorded_seeded_0023, scene_seeded_0053, recorded_seeded_0053, scene_seeded_0056, recorded_seeded_0056, scene_seeded_0060, recorded_seeded_0060, scene_seeded_0063, recorded_seeded_0063, scene_seeded_0064, recorded_seeded_0064, scene_seeded_0071, recorded_seeded_0071, scene_seeded_0086, recorded_seeded_0086, scene_seeded_0088, recorded_seeded_0088, scene_seeded_0092, recorded_seeded_0092};

/// Replays with a seed, each with its record.
pub fn seeded_1_hold()
    ensures seeded_0023 { replay_in 12 scene_seeded_0023 (Some 18446744073709551615) ≡ Some (ended recorded_seeded_0023) }
    ensures seeded_0053 { replay_in 21 scene_seeded_0053 (Some 1) ≡ Some (ended recorded_seeded_0053) }
    ensures seeded_0056 { replay_in 16 scene_seeded_0056 (Some 000000000000002) ≡ Some (ended recorded_seeded_0056) }
    ensures seeded_0060 { replay_in 7 scene_seeded_0060 (Some 241) ≡ Some (ended recorded_seeded_0060) }
    ensures seeded_0063 { replay_in 14 scene_seeded_0063 (Some 17132282011931571960) ≡ Some (ended recorded_seeded_0063) }
    ensures seeded_0064 { replay_in 8 scene_seeded_0064 (Some 0) ≡ Some (ended recorded_seeded_0064) }
    ensures seeded_0071 { replay_in 7 scene_seeded_0071 (Some 18446744073709551615) ≡ Some (stuck recorded_seeded_0071 (0 ∷ 1 ∷ 2 ∷ 3 ∷ [])) }
    ensures seeded_0086 { replay_in 8 scene_seeded_0086 (Some 00000000000240) ≡ Some (stuck recorded_seeded_0086 (0 ∷ [])) }
    ensures seeded_0088 { replay_in 8 scene_seeded_0088 (Some 16329708237217568454) ≡ Some (ended recorded_seeded_0088) }
    ensures seeded_0092 { replay_in 10 scene_seeded_0092 (Some 43) ≡ Some (ended recorded_seeded_0092) }
{}
