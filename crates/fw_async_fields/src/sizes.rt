//! How many bytes of data locks have.

ghost use Rattle.std.specs.Prelude.{◌≡◌};
ghost use Rattle.fw_async_fields.specs.Data.{is_lock_size, is_reply_size};

/// A lock request of this function (extended_tcode) may have so many bytes: an argument and a data value, of four
/// or of eight bytes each. fetch_add (3) and little_add (4) have no argument; 7 is vendor-dependent.
pub fn is_lock_size(function: u32, len: u32) -> bool
    ensures { result ≡ is_lock_size function len }
{
    match function {
        3 | 4 => len == 4 || len == 8,
        7 => len == 4 || len == 8 || len == 16,
        _ => len == 8 || len == 16,
    }
}

/// A lock response may have so many bytes of old value.
pub fn is_reply_size(len: u32) -> bool
    ensures { result ≡ is_reply_size len }
{
    len == 0 || len == 4 || len == 8
}
