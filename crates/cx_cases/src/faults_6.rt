//! Texts, each with its first fault.
ghost use Rattle.std.specs.Prelude.{◌≡◌, Err};
ghost use Rattle.cx_text.specs.declared.fault.FaultKind.TheVariants as faults;
ghost use Rattle.cx_script.specs.Script.{meaning};
ghost use Rattle.cx_cases.specs.Short.{fault_on};
ghost use Rattle.cx_cases.specs.Faults6.{fault_0129, fault_0130, fault_0134, fault_0135, fault_0136, fault_0139, fault_0140, fault_0141, fault_0145, fault_0149};

/// Texts, each with its first fault.
pub fn faults_6_hold()
    ensures on_fault_0129 { meaning 8388608 fault_0129 ≡ Err (fault_on 14 faults.BadWord) }
    ensures on_fault_0130 { meaning 8388608 fault_0130 ≡ Err (fault_on 9 faults.TooLong) }
    ensures on_fault_0134 { meaning 8388608 fault_0134 ≡ Err (fault_on 5 faults.BadWord) }
    ensures on_fault_0135 { meaning 8388608 fault_0135 ≡ Err (fault_on 33 faults.UnknownName) }
    ensures on_fault_0136 { meaning 8388608 fault_0136 ≡ Err (fault_on 26 faults.NotAscii) }
    ensures on_fault_0139 { meaning 8388608 fault_0139 ≡ Err (fault_on 4 faults.BadWord) }
    ensures on_fault_0140 { meaning 8388608 fault_0140 ≡ Err (fault_on 14 faults.BadWord) }
    ensures on_fault_0141 { meaning 8388608 fault_0141 ≡ Err (fault_on 3 faults.BadWord) }
    ensures on_fault_0145 { meaning 8388608 fault_0145 ≡ Err (fault_on 4 faults.Twice) }
    ensures on_fault_0149 { meaning 8388608 fault_0149 ≡ Err (fault_on 18 faults.WrongKind) }
{}
