use fw_words::Swap;

/// Why the account has no next one after an entry. An ID is that of the node that asked.
#[derive(Clone, Copy)]
pub enum Refused {
    /// The requester of a procedure's packet is no node of the latest reset entry.
    NoNode(u16),
    /// A request comes while one of its requester is outstanding.
    Overlap(u16),
    /// A response comes to which no request is outstanding: none of its requester, or of another node, kind or lock function.
    Orphan(u16),
    /// A complete compare_swap at a register of the account shows its argument as the old value, and is no move. `due` is the
    /// word of the register.
    NoMove { swap: Swap, due: u32 },
    /// A reclaim second is over if none runs, or channel 31 is withheld after a reset entry: the code of the event.
    NoEvent(u8),
}
