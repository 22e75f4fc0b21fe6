//! Why no more is told.

/// Why no more is told.
#[derive(Clone, Copy)]
pub enum Lack {
    /// Memory ran out, or more bytes were given than a number of 64 bits counts, or they are of no log.
    Memory,
    /// The sink that is written to failed.
    Sink,
}

/// No more is told: memory ran out, or the bytes are of no log.
#[derive(Clone, Copy)]
pub(crate) struct Untold;
