//! How far a script was read.

/// What is read next, or that nothing is.
#[derive(Clone, Copy)]
pub enum ReaderStage {
    /// Commands, up to `end`.
    Commands,
    /// Skipped lines, since `end` was read.
    AfterEnd,
    /// Nothing, since the end was given.
    Done,
    /// Nothing, since a fault was answered.
    Failed,
}
