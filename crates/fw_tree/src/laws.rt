ghost use Rattle.fw_tree.specs.Numbering.{EndsWithOneRoot};
ghost use Rattle.fw_tree.specs.Topology.{Topology, Made};
ghost use Rattle.fw_tree.specs.Laws.{AnotherInitiatorChangesOneBit};

/// A law, and no code: whatever devices and cables were accepted, the rounds of tree identification come to rest,
/// and exactly one device of the bus is root.
pub fn rounds_end_with_one_root()
    ensures { (p : Topology) → Made p → EndsWithOneRoot p.cables }
{}

/// A law, and no code: the self-ID packets of a bus reset that another device begins are the same but for the initiator's bit.
pub fn another_initiator_changes_one_bit()
    ensures { AnotherInitiatorChangesOneBit }
{}
