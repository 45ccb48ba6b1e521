//! Records, each with its first flaw.
ghost use Rattle.std.specs.Prelude.{◌≡◌, Some};
ghost use Rattle.cx_history.specs.declared.flaw.Cause.TheVariants as causes;
ghost use Rattle.cx_history.specs.Flaw.{first_flaw, flaw};
ghost use Rattle.cx_cases.specs.Flawed1.{scene_flaw_0001, recorded_flaw_0001, scene_flaw_0002, recorded_flaw_0002, scene_flaw_0008, recorded_flaw_0008, scene_flaw_0011, recorded_flaw_0011, scene_flaw_0015, recorded_flaw_0015, scene_flaw_0018, recorded_flaw_0018, scene_flaw_0029, recorded_flaw_0029, scene_flaw_0031, recorded_flaw_0031, scene_flaw_0033, recorded_flaw_0033, scene_flaw_0036, recorded_flaw_0036};

/// Records, each with its first flaw.
pub fn flawed_1_hold()
    ensures flaw_0001 { first_flaw scene_flaw_0001 recorded_flaw_0001 ≡ Some (flaw causes.Text 0 7) }
    ensures flaw_0002 { first_flaw scene_flaw_0002 recorded_flaw_0002 ≡ Some (flaw causes.Text 0 8) }
    ensures flaw_0008 { first_flaw scene_flaw_0008 recorded_flaw_0008 ≡ Some (flaw causes.Gap 1 4) }
    ensures flaw_0011 { first_flaw scene_flaw_0011 recorded_flaw_0011 ≡ Some (flaw causes.Text 3 1) }
    ensures flaw_0015 { first_flaw scene_flaw_0015 recorded_flaw_0015 ≡ Some (flaw causes.Text 0 23) }
    ensures flaw_0018 { first_flaw scene_flaw_0018 recorded_flaw_0018 ≡ Some (flaw causes.Step 1 3) }
    ensures flaw_0029 { first_flaw scene_flaw_0029 recorded_flaw_0029 ≡ Some (flaw causes.Fell 1 8) }
    ensures flaw_0031 { first_flaw scene_flaw_0031 recorded_flaw_0031 ≡ Some (flaw causes.Text 0 13) }
    ensures flaw_0033 { first_flaw scene_flaw_0033 recorded_flaw_0033 ≡ Some (flaw causes.Text 0 8) }
    ensures flaw_0036 { first_flaw scene_flaw_0036 recorded_flaw_0036 ≡ Some (flaw causes.Text 0 25) }
{}
