//! Records, each with its first flaw.
ghost use Rattle.std.specs.Prelude.{◌≡◌, Some};
ghost use Rattle.cx_history.specs.declared.flaw.Cause.TheVariants as causes;
ghost use Rattle.cx_history.specs.Flaw.{first_flaw, flaw};
ghost use Rattle.cx_cases.specs.Flawed3.{scene_flaw_0087, recorded_flaw_0087, scene_flaw_0097, recorded_flaw_0097, scene_flaw_0098, recorded_flaw_0098, scene_flaw_0099, recorded_flaw_0099, scene_flaw_0103, recorded_flaw_0103, scene_flaw_0104, recorded_flaw_0104, scene_flaw_0106, recorded_flaw_0106, scene_flaw_0107, recorded_flaw_0107, scene_flaw_0109, recorded_flaw_0109, scene_flaw_0110, recorded_flaw_0110};

/// Records, each with its first flaw.
pub fn flawed_3_hold()
    ensures flaw_0087 { first_flaw scene_flaw_0087 recorded_flaw_0087 ≡ Some (flaw causes.Step 0 25) }
    ensures flaw_0097 { first_flaw scene_flaw_0097 recorded_flaw_0097 ≡ Some (flaw causes.Step 2 2) }
    ensures flaw_0098 { first_flaw scene_flaw_0098 recorded_flaw_0098 ≡ Some (flaw causes.Step 0 4) }
    ensures flaw_0099 { first_flaw scene_flaw_0099 recorded_flaw_0099 ≡ Some (flaw causes.Text 0 25) }
    ensures flaw_0103 { first_flaw scene_flaw_0103 recorded_flaw_0103 ≡ Some (flaw causes.Text 2 21) }
    ensures flaw_0104 { first_flaw scene_flaw_0104 recorded_flaw_0104 ≡ Some (flaw causes.Text 0 7) }
    ensures flaw_0106 { first_flaw scene_flaw_0106 recorded_flaw_0106 ≡ Some (flaw causes.Text 0 3) }
    ensures flaw_0107 { first_flaw scene_flaw_0107 recorded_flaw_0107 ≡ Some (flaw causes.Shown 1 2) }
    ensures flaw_0109 { first_flaw scene_flaw_0109 recorded_flaw_0109 ≡ Some (flaw causes.Shown 0 41) }
    ensures flaw_0110 { first_flaw scene_flaw_0110 recorded_flaw_0110 ≡ Some (flaw causes.Text 0 2) }
{}
