//! Records, each with its first flaw.
ghost use Rattle.std.specs.Prelude.{◌≡◌, Some};
ghost use Rattle.cx_history.specs.declared.flaw.Cause.TheVariants as causes;
ghost use Rattle.cx_history.specs.Flaw.{first_flaw, flaw};
ghost use Rattle.cx_cases.specs.Flawed2.{scene_flaw_0043, recorded_flaw_0043, scene_flaw_0051, recorded_flaw_0051, scene_flaw_0052, recorded_flaw_0052, scene_flaw_0056, recorded_flaw_0056, scene_flaw_0063, recorded_flaw_0063, scene_flaw_0064, recorded_flaw_0064, scene_flaw_0065, recorded_flaw_0065, scene_flaw_0066, recorded_flaw_0066, scene_flaw_0067, recorded_flaw_0067, scene_flaw_0084, recorded_flaw_0084};

/// Records, each with its first flaw.
pub fn flawed_2_hold()
    ensures flaw_0043 { first_flaw scene_flaw_0043 recorded_flaw_0043 ≡ Some (flaw causes.Text 0 9) }
    ensures flaw_0051 { first_flaw scene_flaw_0051 recorded_flaw_0051 ≡ Some (flaw causes.Text 4 7) }
    ensures flaw_0052 { first_flaw scene_flaw_0052 recorded_flaw_0052 ≡ Some (flaw causes.Shown 0 31) }
    ensures flaw_0056 { first_flaw scene_flaw_0056 recorded_flaw_0056 ≡ Some (flaw causes.Shown 1 28) }
    ensures flaw_0063 { first_flaw scene_flaw_0063 recorded_flaw_0063 ≡ Some (flaw causes.Fell 0 6) }
    ensures flaw_0064 { first_flaw scene_flaw_0064 recorded_flaw_0064 ≡ Some (flaw causes.Fell 0 10) }
    ensures flaw_0065 { first_flaw scene_flaw_0065 recorded_flaw_0065 ≡ Some (flaw causes.Shown 0 5) }
    ensures flaw_0066 { first_flaw scene_flaw_0066 recorded_flaw_0066 ≡ Some (flaw causes.Text 0 3) }
    ensures flaw_0067 { first_flaw scene_flaw_0067 recorded_flaw_0067 ≡ Some (flaw causes.Step 0 7) }
    ensures flaw_0084 { first_flaw scene_flaw_0084 recorded_flaw_0084 ≡ Some (flaw causes.Text 0 4) }
{}
