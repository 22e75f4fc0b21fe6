ghost use Rattle.fw_map.specs.Laws.{SelfIdsTellTheTree};

/// A law, and no code: for each cabling with a device, the tree that identifying it finds has the self-ID packets of the
/// cabling. So it is the one that `rebuild` answers of an entry with these packets and this root.
pub fn self_ids_tell_the_tree()
    ensures { SelfIdsTellTheTree }
{}
