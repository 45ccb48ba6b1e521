ghost use Rattle.cx_record.specs.Laws.{FirstFaultIsLeast, NoFaultIsClean, PrintedIsParsed, PrintedIsRead, PrintedMeansOne};

/// The first fault of a record's text is of the least line that has one, and of the first kind that holds there.
pub fn first_fault_is_least()
    ensures { FirstFaultIsLeast }
{}

/// A text with no first fault has no fault on any line, nor at its end.
pub fn no_fault_is_clean()
    ensures { NoFaultIsClean }
{}

/// What is printed of a record is parsed back: it has no fault, and means that record and no other.
pub fn printed_is_parsed()
    ensures { PrintedIsParsed }
{}

/// What is printed of a scenario and a record of it is read back, as that scenario and that record.
pub fn printed_is_read()
    ensures { PrintedIsRead }
{}

/// Two records of a scenario with the same text are one.
pub fn printed_means_one()
    ensures { PrintedMeansOne }
{}
