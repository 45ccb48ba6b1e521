//! Records, each with its first flaw.
ghost use Rattle.std.specs.Prelude.{◌≡◌, Some};
ghost use Rattle.cx_history.specs.declared.flaw.Cause.TheVariants as causes;
ghost use Rattle.cx_history.specs.Flaw.{first_flaw, flaw};
ghost use Rattle.cx_cases.specs.Flawed4.{scene_flaw_0111, recorded_flaw_0111, scene_flaw_0112, recorded_flaw_0112, scene_flaw_0114, recorded_flaw_0114, scene_flaw_0116, recorded_flaw_0116, scene_flaw_0117, recorded_flaw_0117, scene_flaw_0124, recorded_flaw_0124, scene_flaw_0130, recorded_flaw_0130, scene_flaw_0132, recorded_flaw_0132, scene_flaw_0134, recorded_flaw_0134, scene_flaw_0135, recorded_flaw_0135};

/// Records, each with its first flaw.
pub fn flawed_4_hold()
    ensures flaw_0111 { first_flaw scene_flaw_0111 recorded_flaw_0111 ≡ Some (flaw causes.Step 1 4) }
    ensures flaw_0112 { first_flaw scene_flaw_0112 recorded_flaw_0112 ≡ Some (flaw causes.Gap 0 10) }
    ensures flaw_0114 { first_flaw scene_flaw_0114 recorded_flaw_0114 ≡ Some (flaw causes.Step 1 20) }
    ensures flaw_0116 { first_flaw scene_flaw_0116 recorded_flaw_0116 ≡ Some (flaw causes.Step 0 15) }
    ensures flaw_0117 { first_flaw scene_flaw_0117 recorded_flaw_0117 ≡ Some (flaw causes.Gap 2 4) }
    ensures flaw_0124 { first_flaw scene_flaw_0124 recorded_flaw_0124 ≡ Some (flaw causes.Fell 0 6) }
    ensures flaw_0130 { first_flaw scene_flaw_0130 recorded_flaw_0130 ≡ Some (flaw causes.Gap 3 4) }
    ensures flaw_0132 { first_flaw scene_flaw_0132 recorded_flaw_0132 ≡ Some (flaw causes.Gap 0 18) }
    ensures flaw_0134 { first_flaw scene_flaw_0134 recorded_flaw_0134 ≡ Some (flaw causes.Gap 1 2) }
    ensures flaw_0135 { first_flaw scene_flaw_0135 recorded_flaw_0135 ≡ Some (flaw causes.Text 0 5) }
{}
