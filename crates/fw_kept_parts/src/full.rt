use std::alloc::{AllocError, AllocFailed};

/// Why a part or a place was not kept.
#[derive(Clone, Copy, PartialEq, Eq, Debug)]
pub enum Full {
    /// There are more of them, or more bytes of them, than fit.
    TooLarge,
    /// Memory was refused.
    NoMemory,
}

impl From<AllocError> for Full {
    fn from(_error: AllocError) -> Full {
        Full::NoMemory
    }
}

impl<T: Drop> From<AllocFailed<T>> for Full {
    fn from(_error: AllocFailed<T>) -> Full {
        Full::NoMemory
    }
}
