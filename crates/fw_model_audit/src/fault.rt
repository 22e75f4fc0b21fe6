/// What is wrong with an entry, in the order of the tests. An ID is that of the node that asked; an offset is counted from
/// FFFF F000 0000.
#[derive(Clone, Copy)]
pub enum AuditFault {
    /// The packet's requester is no node of the latest reset entry.
    NoNode(u16),
    /// A request comes while one of its requester stands.
    Overlap(u16),
    /// A response comes that answers no outstanding request: its requester has none, or one to another node, or of another kind or
    /// lock function.
    Orphan(u16),
    /// A complete answer, or a shown word, of a register that is not there; or a complete answer there to a lock that is no
    /// quadlet compare_swap, or without a quadlet. A shown word's ID is that of its node, or FFFF if the device is none.
    NotAllowed(u16, u16),
    /// The word that was found, and the one that the account has.
    WrongWord(u32, u32),
    /// A compare_swap from the first word to the second that is no move.
    NoMove(u32, u32),
    /// An event of this code comes if there can be none.
    NoEvent(u8),
}
