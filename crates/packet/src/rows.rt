// Worked examples of the definitions. The functions do nothing; their contracts are the examples.

ghost use Rattle.std.specs.Prelude.{◌≡◌};
ghost use Rattle.packet.specs.Spelling.{max_body};
ghost use Rattle.packet.specs.FaultRows.{AllCount, first_byte_rows, length_rows, publish_rows};
ghost use Rattle.packet.specs.FaultRows.{id_rows, list_rows};
ghost use Rattle.packet.specs.ConnectFaultRows.{connect_rows};

/// Shows which of two faults is reported.
pub fn first_fault_counts()
    ensures first_byte { AllCount first_byte_rows }
    ensures length { AllCount length_rows }
    ensures publish { AllCount publish_rows }
    ensures id { AllCount id_rows }
    ensures list { AllCount list_rows }
    ensures connect { AllCount connect_rows }
{}

/// Shows the limit of this broker on a packet's body, 1,048,572 bytes.
pub fn numbers_of_packets()
    ensures { max_body ≡ 1048572 }
{}
