//! What the forms of packets promise.

ghost use Rattle.kp_jute.specs.Form.{Lawful};
ghost use Rattle.kp_jute.specs.Jute.{packets};
ghost use Rattle.kp_wire.specs.Common.{stats, wire_acls};
ghost use Rattle.kp_wire.specs.Connects.{connect_packets, connect_answer_packets};
ghost use Rattle.kp_wire.specs.Request.{requests};
ghost use Rattle.kp_wire.specs.ServerPackets.{server_packets};
ghost use Rattle.kp_wire.specs.declared.reply.Shape.{Shape};

/// A node's numbers, a line of an access list and a packet, whatever the shape of the replies, are read exactly where the bytes begin with their
/// spelling, whatever follows, and each value has one spelling.
pub fn laws()
    ensures stat { Lawful stats }
    ensures acl { Lawful wire_acls }
    ensures request { Lawful (packets requests) }
    ensures answer { (s : Shape) → Lawful (server_packets s) }
    ensures connect { Lawful connect_packets }
    ensures connect_reply { Lawful connect_answer_packets }
{}
