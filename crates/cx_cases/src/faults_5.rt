//! Texts, each with its first fault.
ghost use Rattle.std.specs.Prelude.{◌≡◌, Err};
ghost use Rattle.cx_text.specs.declared.fault.FaultKind.TheVariants as faults;
ghost use Rattle.cx_script.specs.Script.{meaning};
ghost use Rattle.cx_cases.specs.Short.{fault_on};
ghost use Rattle.cx_cases.specs.Faults5.{fault_0087, fault_0088, fault_0090, fault_0095, fault_0097, fault_0099, fault_0102, fault_0103, fault_0108, fault_0110, fault_0111, fault_0113, fault_0114, fault_0116, fault_0118, fault_0120, fault_0121, fault_0122, fault_0124, fault_0125};

/// Texts, each with its first fault.
pub fn faults_5_hold()
    ensures on_fault_0087 { meaning 8388608 fault_0087 ≡ Err (fault_on 2 faults.BadWord) }
    ensures on_fault_0088 { meaning 8388608 fault_0088 ≡ Err (fault_on 5 faults.Twice) }
    ensures on_fault_0090 { meaning 8388608 fault_0090 ≡ Err (fault_on 9 faults.BadWord) }
    ensures on_fault_0095 { meaning 8388608 fault_0095 ≡ Err (fault_on 15 faults.BadWord) }
    ensures on_fault_0097 { meaning 8388608 fault_0097 ≡ Err (fault_on 4 faults.BadWord) }
    ensures on_fault_0099 { meaning 8388608 fault_0099 ≡ Err (fault_on 6 faults.BadWord) }
    ensures on_fault_0102 { meaning 8388608 fault_0102 ≡ Err (fault_on 13 faults.NotAscii) }
    ensures on_fault_0103 { meaning 8388608 fault_0103 ≡ Err (fault_on 10 faults.OutOfRange) }
    ensures on_fault_0108 { meaning 8388608 fault_0108 ≡ Err (fault_on 3 faults.UnknownName) }
    ensures on_fault_0110 { meaning 8388608 fault_0110 ≡ Err (fault_on 1 faults.BadVersion) }
    ensures on_fault_0111 { meaning 8388608 fault_0111 ≡ Err (fault_on 2 faults.BadWord) }
    ensures on_fault_0113 { meaning 8388608 fault_0113 ≡ Err (fault_on 9 faults.BadWord) }
    ensures on_fault_0114 { meaning 8388608 fault_0114 ≡ Err (fault_on 9 faults.BadWord) }
    ensures on_fault_0116 { meaning 8388608 fault_0116 ≡ Err (fault_on 11 faults.NotAscii) }
    ensures on_fault_0118 { meaning 8388608 fault_0118 ≡ Err (fault_on 4 faults.Twice) }
    ensures on_fault_0120 { meaning 8388608 fault_0120 ≡ Err (fault_on 3 faults.NoEnd) }
    ensures on_fault_0121 { meaning 8388608 fault_0121 ≡ Err (fault_on 1 faults.BadVersion) }
    ensures on_fault_0122 { meaning 8388608 fault_0122 ≡ Err (fault_on 6 faults.BadWord) }
    ensures on_fault_0124 { meaning 8388608 fault_0124 ≡ Err (fault_on 1 faults.BadVersion) }
    ensures on_fault_0125 { meaning 8388608 fault_0125 ≡ Err (fault_on 9 faults.BadWord) }
{}
