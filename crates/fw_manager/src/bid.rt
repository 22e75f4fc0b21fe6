use fw_csr::QuadletAccess;

/// What a candidate does next.
#[derive(Drop)]
pub enum Bid {
    /// Its request goes to the node with this number.
    Send { to: u8, request: QuadletAccess },
    /// It is the bus manager of this epoch.
    Elected,
    /// BUS_MANAGER_ID held this word already.
    Defeated { by: u32 },
    /// The epoch's bid has ended.
    Done,
}
