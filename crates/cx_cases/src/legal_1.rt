//! Records that are legal and follow their scenario.
ghost use Rattle.std.specs.Prelude.{◌≡◌, None};
ghost use Rattle.cx_history.specs.Flaw.{first_flaw};
ghost use Rattle.cx_cases.specs.Legal1.{scene_check_0004, recorded_check_0004, scene_check_0025, recorded_check_0025, scene_check_0042, recorded_check_0042, scene_check_0046, recorded_check_0046, scene_check_0057, recorded_check_0057, scene_check_0062, recorded_check_0062, scene_check_0070, recorded_check_0070, scene_check_0078, recorded_check_0078, scene_check_0085, recorded_check_0085, scene_check_0090, recorded_check_0090};

/// Records that are legal and follow their scenario.
pub fn legal_1_hold()
    ensures check_0004 { first_flaw scene_check_0004 recorded_check_0004 ≡ None }
    ensures check_0025 { first_flaw scene_check_0025 recorded_check_0025 ≡ None }
    ensures check_0042 { first_flaw scene_check_0042 recorded_check_0042 ≡ None }
    ensures check_0046 { first_flaw scene_check_0046 recorded_check_0046 ≡ None }
    ensures check_0057 { first_flaw scene_check_0057 recorded_check_0057 ≡ None }
    ensures check_0062 { first_flaw scene_check_0062 recorded_check_0062 ≡ None }
    ensures check_0070 { first_flaw scene_check_0070 recorded_check_0070 ≡ None }
    ensures check_0078 { first_flaw scene_check_0078 recorded_check_0078 ≡ None }
    ensures check_0085 { first_flaw scene_check_0085 recorded_check_0085 ≡ None }
    ensures check_0090 { first_flaw scene_check_0090 recorded_check_0090 ≡ None }
{}
