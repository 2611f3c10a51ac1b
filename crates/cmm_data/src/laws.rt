//! Laws of data that is laid out. Each is the contract of a function that does nothing.

ghost use Rattle.cmm_data.specs.Laws.{DataReachesItsEnd, FixesAreFilled, InRangeCanBeLaidOut, LabelsLieInData};

/// The data of each program in range can be laid out.
pub fn programs_in_range()
    ensures { InRangeCanBeLaidOut }
{}

/// The bytes of data reach to the end of the last datum, wherever code lies.
pub fn data_reaches_its_end()
    ensures { DataReachesItsEnd }
{}

/// Fixes are filled one after another, each within the bytes and none over another's.
pub fn fixes_in_turn()
    ensures { FixesAreFilled }
{}

/// The address of each label lies in the data, or is its end.
pub fn labels_in_data()
    ensures { LabelsLieInData }
{}
