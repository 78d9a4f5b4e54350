// Worked examples of the definitions. The functions do nothing; their contracts are the examples.

ghost use Rattle.std.specs.Prelude.{◌≡◌};
ghost use Rattle.packet_base.specs.declared.qos.QoS.TheVariants.{AtMostOnce, AtLeastOnce, ExactlyOnce};
ghost use Rattle.session_base.specs.Form.{body_length};
ghost use Rattle.session_base.specs.FormRows.{one_and_two_bytes};

/// Shows how many bytes the body of a PUBLISH has at each QoS: a Packet Identifier counts at QoS 1
/// and at QoS 2.
pub fn bodies_are_counted()
    ensures qos_0 { body_length (one_and_two_bytes AtMostOnce) ≡ 5 }
    ensures qos_1 { body_length (one_and_two_bytes AtLeastOnce) ≡ 7 }
    ensures qos_2 { body_length (one_and_two_bytes ExactlyOnce) ≡ 7 }
{}
