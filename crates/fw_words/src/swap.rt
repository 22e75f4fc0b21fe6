ghost use Rattle.std.specs.Prelude.{◌≡◌};
ghost use Rattle.fw_words.specs.Swaps.{quadlet_swap};

use crate::quadlet_at;

/// The extended transaction code of a compare_swap (IEEE 1394-1995, lock functions).
pub const COMPARE_SWAP: u8 = 2;

/// The two quadlets of a quadlet compare_swap, a lock transaction: the register becomes `new` exactly if it equals
/// `argument`.
#[derive(Clone, Copy, PartialEq, Eq)]
pub struct Swap {
    /// arg_value, with which the register is compared.
    pub argument: u32,
    /// data_value, which the register becomes if the two are equal.
    pub new: u32,
}

impl Swap {
    /// The quadlet compare_swap that a lock request with this function and this data is. None for each other lock: one of
    /// another function, or of eight-byte values.
    pub fn of_lock(function: u8, bytes: &[u8]) -> Option<Swap>
        ensures { result ≡ quadlet_swap function bytes.now }
    {
        if function == COMPARE_SWAP && bytes.len() == 8 {
            Some(Swap {
                argument: quadlet_at(bytes, 0).0,
                new: quadlet_at(bytes, 4).0,
            })
        } else {
            None
        }
    }
}
