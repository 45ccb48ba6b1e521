//! Records that are legal and follow their scenario.
ghost use Rattle.std.specs.Prelude.{◌≡◌, None};
ghost use Rattle.cx_history.specs.Flaw.{first_flaw};
ghost use Rattle.cx_cases.specs.Legal2.{scene_check_0098, recorded_check_0098, scene_check_0115, recorded_check_0115, scene_check_0135, recorded_check_0135, scene_check_0144, recorded_check_0144};

/// Records that are legal and follow their scenario.
pub fn legal_2_hold()
    ensures check_0098 { first_flaw scene_check_0098 recorded_check_0098 ≡ None }
    ensures check_0115 { first_flaw scene_check_0115 recorded_check_0115 ≡ None }
    ensures check_0135 { first_flaw scene_check_0135 recorded_check_0135 ≡ None }
    ensures check_0144 { first_flaw scene_check_0144 recorded_check_0144 ≡ None }
{}
