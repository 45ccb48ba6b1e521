//! Texts, each with its first fault.
ghost use Rattle.std.specs.Prelude.{◌≡◌, Err};
ghost use Rattle.cx_text.specs.declared.fault.FaultKind.TheVariants as faults;
ghost use Rattle.cx_script.specs.Script.{meaning};
ghost use Rattle.cx_cases.specs.Short.{fault_on};
ghost use Rattle.cx_cases.specs.Faults3.{derived_fault131, derived_fault135, derived_fault139, derived_fault141, derived_fault143, derived_fault145, derived_fault147, derived_fault149, derived_fault151, derived_fault153, derived_fault155, derived_fault157, derived_fault159, derived_many_jthread, fault_0003, fault_0005, fault_0006, fault_0010, fault_0019, fault_0020};

/// Texts, each with its first fault.
pub fn faults_3_hold()
    ensures on_derived_fault131 { meaning 8388608 derived_fault131 ≡ Err (fault_on 4 faults.WrongKind) }
    ensures on_derived_fault135 { meaning 8388608 derived_fault135 ≡ Err (fault_on 5 faults.BadOrder) }
    ensures on_derived_fault139 { meaning 8388608 derived_fault139 ≡ Err (fault_on 8 faults.LatchOver) }
    ensures on_derived_fault141 { meaning 8388608 derived_fault141 ≡ Err (fault_on 4 faults.LatchOver) }
    ensures on_derived_fault143 { meaning 8388608 derived_fault143 ≡ Err (fault_on 4 faults.OutOfRange) }
    ensures on_derived_fault145 { meaning 8388608 derived_fault145 ≡ Err (fault_on 4 faults.OutOfRange) }
    ensures on_derived_fault147 { meaning 8388608 derived_fault147 ≡ Err (fault_on 4 faults.OutOfRange) }
    ensures on_derived_fault149 { meaning 8388608 derived_fault149 ≡ Err (fault_on 4 faults.BadWord) }
    ensures on_derived_fault151 { meaning 8388608 derived_fault151 ≡ Err (fault_on 5 faults.WrongKind) }
    ensures on_derived_fault153 { meaning 8388608 derived_fault153 ≡ Err (fault_on 5 faults.WrongKind) }
    ensures on_derived_fault155 { meaning 8388608 derived_fault155 ≡ Err (fault_on 5 faults.OutOfRange) }
    ensures on_derived_fault157 { meaning 8388608 derived_fault157 ≡ Err (fault_on 5 faults.UnknownName) }
    ensures on_derived_fault159 { meaning 8388608 derived_fault159 ≡ Err (fault_on 6 faults.WrongKind) }
    ensures on_derived_many_jthread { meaning 8388608 derived_many_jthread ≡ Err (fault_on 65 faults.TooMany) }
    ensures on_fault_0003 { meaning 8388608 fault_0003 ≡ Err (fault_on 1 faults.BadVersion) }
    ensures on_fault_0005 { meaning 8388608 fault_0005 ≡ Err (fault_on 5 faults.BadWord) }
    ensures on_fault_0006 { meaning 8388608 fault_0006 ≡ Err (fault_on 18 faults.UnknownName) }
    ensures on_fault_0010 { meaning 8388608 fault_0010 ≡ Err (fault_on 6 faults.UnknownName) }
    ensures on_fault_0019 { meaning 8388608 fault_0019 ≡ Err (fault_on 19 faults.WrongKind) }
    ensures on_fault_0020 { meaning 8388608 fault_0020 ≡ Err (fault_on 9 faults.WrongKind) }
{}
