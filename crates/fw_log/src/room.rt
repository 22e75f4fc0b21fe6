use crate::held::SplitEntry;
use crate::right_body::RightBody;
use crate::{NodeList, ResetEntry};
use fw_phy::SelfIds;
use std::alloc::{AllocError, Global};

/// Memory for what an entry refers to that a reader gives: a reset, and the bytes of an entry that came in pieces; and the body of the latest bus
/// reset that was found right, since the next is mostly the same.
#[derive(Drop)]
pub struct ReadBuffers {
    pub(crate) bytes: Box<SplitEntry>,
    pub(crate) reset: Box<ResetEntry>,
    pub(crate) latest: RightBody,
}

impl ReadBuffers {
    /// Room for one entry.
    pub fn new(alloc: Global) -> Result<ReadBuffers, AllocError> {
        Ok(ReadBuffers {
            bytes: Box::new(alloc, SplitEntry::new())?,
            reset: Box::new(
                alloc,
                ResetEntry {
                    epoch: 0,
                    root: 0,
                    manager: None,
                    initiator: 0,
                    nodes: NodeList::new(),
                    ids: SelfIds::new(),
                },
            )?,
            latest: RightBody::new(),
        })
    }
}
