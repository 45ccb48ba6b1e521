//! Texts, each with its first fault.
ghost use Rattle.std.specs.Prelude.{◌≡◌, Err};
ghost use Rattle.cx_text.specs.declared.fault.FaultKind.TheVariants as faults;
ghost use Rattle.cx_script.specs.Script.{meaning};
ghost use Rattle.cx_cases.specs.Short.{fault_on};
ghost use Rattle.cx_cases.specs.Faults4.{fault_0022, fault_0023, fault_0027, fault_0032, fault_0033, fault_0035, fault_0040, fault_0045, fault_0050, fault_0053, fault_0056, fault_0064, fault_0067, fault_0069, fault_0070, fault_0073, fault_0078, fault_0080, fault_0081, fault_0086};

/// Texts, each with its first fault.
pub fn faults_4_hold()
    ensures on_fault_0022 { meaning 8388608 fault_0022 ≡ Err (fault_on 4 faults.UnknownName) }
    ensures on_fault_0023 { meaning 8388608 fault_0023 ≡ Err (fault_on 15 faults.BadWord) }
    ensures on_fault_0027 { meaning 8388608 fault_0027 ≡ Err (fault_on 4 faults.BadWord) }
    ensures on_fault_0032 { meaning 8388608 fault_0032 ≡ Err (fault_on 13 faults.BadWord) }
    ensures on_fault_0033 { meaning 8388608 fault_0033 ≡ Err (fault_on 3 faults.BadWord) }
    ensures on_fault_0035 { meaning 8388608 fault_0035 ≡ Err (fault_on 3 faults.Twice) }
    ensures on_fault_0040 { meaning 8388608 fault_0040 ≡ Err (fault_on 2 faults.NotAscii) }
    ensures on_fault_0045 { meaning 8388608 fault_0045 ≡ Err (fault_on 29 faults.BadOrder) }
    ensures on_fault_0050 { meaning 8388608 fault_0050 ≡ Err (fault_on 1 faults.BadVersion) }
    ensures on_fault_0053 { meaning 8388608 fault_0053 ≡ Err (fault_on 2 faults.BadWord) }
    ensures on_fault_0056 { meaning 8388608 fault_0056 ≡ Err (fault_on 8 faults.NotAscii) }
    ensures on_fault_0064 { meaning 8388608 fault_0064 ≡ Err (fault_on 2 faults.BadWord) }
    ensures on_fault_0067 { meaning 8388608 fault_0067 ≡ Err (fault_on 20 faults.Twice) }
    ensures on_fault_0069 { meaning 8388608 fault_0069 ≡ Err (fault_on 14 faults.BadWord) }
    ensures on_fault_0070 { meaning 8388608 fault_0070 ≡ Err (fault_on 12 faults.Twice) }
    ensures on_fault_0073 { meaning 8388608 fault_0073 ≡ Err (fault_on 3 faults.BadWord) }
    ensures on_fault_0078 { meaning 8388608 fault_0078 ≡ Err (fault_on 8 faults.UnknownName) }
    ensures on_fault_0080 { meaning 8388608 fault_0080 ≡ Err (fault_on 10 faults.OutOfRange) }
    ensures on_fault_0081 { meaning 8388608 fault_0081 ≡ Err (fault_on 3 faults.BadWord) }
    ensures on_fault_0086 { meaning 8388608 fault_0086 ≡ Err (fault_on 1 faults.BadVersion) }
{}
