//! Texts, each with its first fault.
ghost use Rattle.std.specs.Prelude.{◌≡◌, Err};
ghost use Rattle.cx_text.specs.declared.fault.FaultKind.TheVariants as faults;
ghost use Rattle.cx_script.specs.Script.{meaning};
ghost use Rattle.cx_cases.specs.Short.{fault_on};
ghost use Rattle.cx_cases.specs.Faults2.{derived_fault061, derived_fault069, derived_fault071, derived_fault083, derived_fault087, derived_fault089, derived_fault095, derived_fault097, derived_fault099, derived_fault101, derived_fault109, derived_fault111, derived_fault115, derived_fault117, derived_fault119, derived_fault121, derived_fault123, derived_fault125, derived_fault127, derived_fault129};

/// Texts, each with its first fault.
pub fn faults_2_hold()
    ensures on_derived_fault061 { meaning 8388608 derived_fault061 ≡ Err (fault_on 2 faults.OutOfRange) }
    ensures on_derived_fault069 { meaning 8388608 derived_fault069 ≡ Err (fault_on 2 faults.UnknownName) }
    ensures on_derived_fault071 { meaning 8388608 derived_fault071 ≡ Err (fault_on 3 faults.WrongKind) }
    ensures on_derived_fault083 { meaning 8388608 derived_fault083 ≡ Err (fault_on 1 faults.BadVersion) }
    ensures on_derived_fault087 { meaning 8388608 derived_fault087 ≡ Err (fault_on 3 faults.BadVersion) }
    ensures on_derived_fault089 { meaning 8388608 derived_fault089 ≡ Err (fault_on 4 faults.WrongKind) }
    ensures on_derived_fault095 { meaning 8388608 derived_fault095 ≡ Err (fault_on 4 faults.WrongKind) }
    ensures on_derived_fault097 { meaning 8388608 derived_fault097 ≡ Err (fault_on 4 faults.WrongKind) }
    ensures on_derived_fault099 { meaning 8388608 derived_fault099 ≡ Err (fault_on 4 faults.WrongKind) }
    ensures on_derived_fault101 { meaning 8388608 derived_fault101 ≡ Err (fault_on 4 faults.WrongKind) }
    ensures on_derived_fault109 { meaning 8388608 derived_fault109 ≡ Err (fault_on 5 faults.WrongKind) }
    ensures on_derived_fault111 { meaning 8388608 derived_fault111 ≡ Err (fault_on 4 faults.WrongKind) }
    ensures on_derived_fault115 { meaning 8388608 derived_fault115 ≡ Err (fault_on 4 faults.OutOfRange) }
    ensures on_derived_fault117 { meaning 8388608 derived_fault117 ≡ Err (fault_on 4 faults.BadWord) }
    ensures on_derived_fault119 { meaning 8388608 derived_fault119 ≡ Err (fault_on 4 faults.WrongKind) }
    ensures on_derived_fault121 { meaning 8388608 derived_fault121 ≡ Err (fault_on 4 faults.OutOfRange) }
    ensures on_derived_fault123 { meaning 8388608 derived_fault123 ≡ Err (fault_on 4 faults.BadWord) }
    ensures on_derived_fault125 { meaning 8388608 derived_fault125 ≡ Err (fault_on 5 faults.Twice) }
    ensures on_derived_fault127 { meaning 8388608 derived_fault127 ≡ Err (fault_on 5 faults.WrongKind) }
    ensures on_derived_fault129 { meaning 8388608 derived_fault129 ≡ Err (fault_on 4 faults.BadWord) }
{}
