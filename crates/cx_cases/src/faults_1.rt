//! Texts, each with its first fault.
ghost use Rattle.std.specs.Prelude.{◌≡◌, Err};
ghost use Rattle.cx_text.specs.declared.fault.FaultKind.TheVariants as faults;
ghost use Rattle.cx_script.specs.Script.{meaning};
ghost use Rattle.cx_cases.specs.Short.{fault_on};
ghost use Rattle.cx_cases.specs.Faults1.{derived_bytes18, derived_bytes22, derived_fault001, derived_fault011, derived_fault015, derived_fault019, derived_fault023, derived_fault027, derived_fault031, derived_fault033, derived_fault035, derived_fault037, derived_fault039, derived_fault043, derived_fault045, derived_fault047, derived_fault051, derived_fault053, derived_fault055, derived_fault059};

/// Texts, each with its first fault.
pub fn faults_1_hold()
    ensures on_derived_bytes18 { meaning 8388608 derived_bytes18 ≡ Err (fault_on 2 faults.TooLong) }
    ensures on_derived_bytes22 { meaning 8388608 derived_bytes22 ≡ Err (fault_on 4 faults.TooLong) }
    ensures on_derived_fault001 { meaning 8388608 derived_fault001 ≡ Err (fault_on 2 faults.BadWord) }
    ensures on_derived_fault011 { meaning 8388608 derived_fault011 ≡ Err (fault_on 2 faults.BadWord) }
    ensures on_derived_fault015 { meaning 8388608 derived_fault015 ≡ Err (fault_on 2 faults.OutOfRange) }
    ensures on_derived_fault019 { meaning 8388608 derived_fault019 ≡ Err (fault_on 2 faults.BadWord) }
    ensures on_derived_fault023 { meaning 8388608 derived_fault023 ≡ Err (fault_on 2 faults.OutOfRange) }
    ensures on_derived_fault027 { meaning 8388608 derived_fault027 ≡ Err (fault_on 2 faults.UnknownName) }
    ensures on_derived_fault031 { meaning 8388608 derived_fault031 ≡ Err (fault_on 3 faults.BadWord) }
    ensures on_derived_fault033 { meaning 8388608 derived_fault033 ≡ Err (fault_on 2 faults.Twice) }
    ensures on_derived_fault035 { meaning 8388608 derived_fault035 ≡ Err (fault_on 2 faults.UnknownName) }
    ensures on_derived_fault037 { meaning 8388608 derived_fault037 ≡ Err (fault_on 3 faults.WrongKind) }
    ensures on_derived_fault039 { meaning 8388608 derived_fault039 ≡ Err (fault_on 7 faults.BadWord) }
    ensures on_derived_fault043 { meaning 8388608 derived_fault043 ≡ Err (fault_on 3 faults.BadWord) }
    ensures on_derived_fault045 { meaning 8388608 derived_fault045 ≡ Err (fault_on 3 faults.WrongKind) }
    ensures on_derived_fault047 { meaning 8388608 derived_fault047 ≡ Err (fault_on 3 faults.Twice) }
    ensures on_derived_fault051 { meaning 8388608 derived_fault051 ≡ Err (fault_on 2 faults.BadWord) }
    ensures on_derived_fault053 { meaning 8388608 derived_fault053 ≡ Err (fault_on 2 faults.BadWord) }
    ensures on_derived_fault055 { meaning 8388608 derived_fault055 ≡ Err (fault_on 2 faults.OutOfRange) }
    ensures on_derived_fault059 { meaning 8388608 derived_fault059 ≡ Err (fault_on 2 faults.BadWord) }
{}
