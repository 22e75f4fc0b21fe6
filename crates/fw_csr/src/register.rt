/// What stands at an offset: its word, and which requests are allowed there.
#[derive(Clone, Copy)]
pub enum RegisterAccess {
    /// A word that can only be read.
    ReadOnly(u32),
    /// A word that can be read, and changed by a quadlet compare_swap.
    ReadSwap(u32),
    /// An area that can only be written, by quadlet or block.
    WriteOnly,
}
