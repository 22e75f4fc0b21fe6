/// Why a call stops before its work is done, whatever it reads.
#[derive(Clone, Copy)]
pub enum Stop {
    /// A read failed.
    ReadFault,
    /// A write failed.
    WriteFault,
    /// More bytes came than the call reads, and nothing within that limit is refused.
    TooLong,
    /// Memory ran out.
    NoMemory,
}
