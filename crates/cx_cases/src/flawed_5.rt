//! Records, each with its first flaw.
ghost use Rattle.std.specs.Prelude.{◌≡◌, Some};
ghost use Rattle.cx_history.specs.declared.flaw.Cause.TheVariants as causes;
ghost use Rattle.cx_history.specs.Flaw.{first_flaw, flaw};
ghost use Rattle.cx_cases.specs.Flawed5.{scene_flaw_0139, recorded_flaw_0139, scene_flaw_0140, recorded_flaw_0140, scene_flaw_0144, recorded_flaw_0144, scene_flaw_0145, recorded_flaw_0145, scene_flaw_0146, recorded_flaw_0146, scene_flaw_0148, recorded_flaw_0148, scene_forged_3, recorded_forged_3, scene_forged_4, recorded_forged_4, scene_forged_5, recorded_forged_5, scene_flaw_worked, recorded_flaw_worked};

/// Records, each with its first flaw.
pub fn flawed_5_hold()
    ensures flaw_0139 { first_flaw scene_flaw_0139 recorded_flaw_0139 ≡ Some (flaw causes.Fell 0 11) }
    ensures flaw_0140 { first_flaw scene_flaw_0140 recorded_flaw_0140 ≡ Some (flaw causes.Text 2 0) }
    ensures flaw_0144 { first_flaw scene_flaw_0144 recorded_flaw_0144 ≡ Some (flaw causes.Step 0 2) }
    ensures flaw_0145 { first_flaw scene_flaw_0145 recorded_flaw_0145 ≡ Some (flaw causes.Step 0 2) }
    ensures flaw_0146 { first_flaw scene_flaw_0146 recorded_flaw_0146 ≡ Some (flaw causes.Text 0 11) }
    ensures flaw_0148 { first_flaw scene_flaw_0148 recorded_flaw_0148 ≡ Some (flaw causes.Shown 0 4) }
    ensures forged_3 { first_flaw scene_forged_3 recorded_forged_3 ≡ Some (flaw causes.Shown 0 0) }
    ensures forged_4 { first_flaw scene_forged_4 recorded_forged_4 ≡ Some (flaw causes.Fell 0 2) }
    ensures forged_5 { first_flaw scene_forged_5 recorded_forged_5 ≡ Some (flaw causes.Order 1 0) }
    ensures flaw_worked { first_flaw scene_flaw_worked recorded_flaw_worked ≡ Some (flaw causes.Step 1 4) }
{}
