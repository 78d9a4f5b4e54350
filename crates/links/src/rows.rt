// Worked examples of the definitions. The functions do nothing; their contracts are the examples.

ghost use Rattle.links.specs.Rows.{fault_rows, parcel_rows, AllCount, AreReadSo, AreWrittenSo};

/// Shows the bytes, written by hand, of a parcel of each kind, and what they are read as.
pub fn each_parcel_has_its_bytes()
    ensures written { AreWrittenSo parcel_rows }
    ensures read { AreReadSo parcel_rows }
{}

/// Shows which fault is reported.
pub fn first_fault_of_a_parcel_counts()
    ensures { AllCount fault_rows }
{}
