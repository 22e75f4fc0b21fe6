ghost use Rattle.std.specs.Prelude.{◌≡◌, ◌↔◌, IsTrue};
ghost use Rattle.fw_csr.specs.Replies.{complete, type_error, address_error};

/// Response codes (IEEE 1394-1995, rcode). The registers here give none but complete, type_error and
/// address_error (own).
#[derive(Clone, Copy)]
pub enum ResponseCode {
    Complete = 0,
    ConflictError = 4,
    DataError = 5,
    TypeError = 6,
    AddressError = 7,
}

/// What a register answers.
#[derive(Clone, Copy, PartialEq, Eq)]
pub struct Reply {
    /// The number of a `ResponseCode`.
    pub rcode: u8,
    /// What was read, or stood there before a lock; 0 unless a read or lock was complete.
    pub value: u32,
}

impl Reply {
    /// The request was carried out; what it read is `value`.
    pub fn complete(value: u32) -> Reply
        ensures { result ≡ complete value }
    {
        Reply {
            rcode: ResponseCode::Complete as u8,
            value,
        }
    }

    /// A request of this kind is not allowed at the register.
    pub fn type_error() -> Reply
        ensures { result ≡ type_error }
    {
        Reply {
            rcode: ResponseCode::TypeError as u8,
            value: 0,
        }
    }

    /// No register stands at the offset.
    pub fn address_error() -> Reply
        ensures { result ≡ address_error }
    {
        Reply {
            rcode: ResponseCode::AddressError as u8,
            value: 0,
        }
    }

    /// The request was carried out.
    pub fn is_complete(&self) -> bool
        ensures { IsTrue result ↔ (self.now.rcode ≡ 0) }
    {
        self.rcode == ResponseCode::Complete as u8
    }
}
