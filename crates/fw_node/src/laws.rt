ghost use Rattle.std.specs.Prelude.{◌≡◌, ◌<◌, ◌^◌, ℕ, Option, Some};
ghost use Rattle.fw_async.specs.declared.packet.Head.{Head};
ghost use Rattle.fw_async.specs.declared.packet.Packet.{Packet};
ghost use Rattle.fw_csr.specs.Replies.{reply};
ghost use Rattle.fw_csr.specs.declared.register.RegisterAccess.{RegisterAccess};
ghost use Rattle.fw_csr.specs.declared.request.Request.{Request};
ghost use Rattle.fw_node.specs.Packets.{packet_of, request_in, response_to, reply_in};
ghost use Rattle.fw_node.specs.Space.{Space, answer_of};
ghost use Rattle.fw_node.specs.State.{NodeState, HasSpace, space_of, after_request};

/// A node answers as each space whose registers it has, and has the registers of the space that the answer leaves.
pub fn nodes_answer_as_their_spaces()
    ensures reply { (n : NodeState) (s : Space) (r : Request) → HasSpace n s → (answer_of (space_of s.number s.cycle n) r).reply ≡ (answer_of s r).reply }
    ensures after { (n : NodeState) (s : Space) (r : Request) → HasSpace n s → HasSpace (after_request (Some r) n) (answer_of s r).after }
{}

/// A packet that asks a request asks it, and the packet by which a node answers with a register's reply carries that reply.
pub fn packets_carry_what_they_are_made_of()
    ensures requests { (h : Head) (r : Request) → request_in (packet_of h r) ≡ Some r }
    ensures replies { (n : ℕ) (h : Head) (r : Request) (register : Option RegisterAccess) (q : Packet) → (reply register r).value < 2 ^ 32 → response_to n (packet_of h r) (reply register r) ≡ Some q → reply_in q ≡ Some (reply register r) }
{}
