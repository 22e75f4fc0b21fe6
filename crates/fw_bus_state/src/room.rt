use fw_async::PacketRoom;
use fw_log_entry::{CycleRoom, EntryRoom};
use std::alloc::{AllocError, Global};

/// Memory in which entries and packets are put together. It is made once and used again for each.
#[derive(Drop)]
pub struct WriteBuffers {
    pub entry: EntryRoom,
    /// The packet that is sent.
    pub packet: PacketRoom,
    /// The entries of cycles, until they are written.
    pub cycle: CycleRoom,
}

impl WriteBuffers {
    /// Room for one entry and one packet.
    pub fn new(alloc: Global) -> Result<WriteBuffers, AllocError> {
        Ok(WriteBuffers {
            entry: EntryRoom::new(alloc)?,
            packet: PacketRoom::new(),
            cycle: CycleRoom::new(),
        })
    }
}
