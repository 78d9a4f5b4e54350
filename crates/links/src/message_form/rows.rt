// Worked examples of the definitions. The functions do nothing; their contracts are the examples.

ghost use Rattle.std.specs.Prelude.{◌≡◌};
ghost use Rattle.links.specs.message_form.Messages.{max_counted};
ghost use Rattle.links.specs.message_form.Rows.{member_rows, number_rows, AreReadSo, AreWrittenSo};
ghost use Rattle.links.specs.message_form.LogRows.{append_rows, log_rows};
ghost use Rattle.links.specs.message_form.FaultRows.{command_rows, log_fault_rows, shape_rows, AllCount};

/// Shows the bytes, written by hand, of a message of each kind, with a command of each kind.
pub fn each_kind_is_written()
    ensures numbers { AreWrittenSo number_rows }
    ensures members { AreWrittenSo member_rows }
    ensures commands { AreWrittenSo append_rows }
    ensures logs { AreWrittenSo log_rows }
{}

/// Shows what these bytes are read as.
pub fn each_kind_is_read()
    ensures numbers { AreReadSo number_rows }
    ensures members { AreReadSo member_rows }
    ensures commands { AreReadSo append_rows }
    ensures logs { AreReadSo log_rows }
{}

/// Shows which fault is reported, of one or two.
pub fn first_fault_counts()
    ensures shape { AllCount shape_rows }
    ensures command { AllCount command_rows }
    ensures log { AllCount log_fault_rows }
{}

/// Shows the most members of a list, which its one byte of count can say.
pub fn members_are_counted()
    ensures { max_counted ≡ 255 }
{}
