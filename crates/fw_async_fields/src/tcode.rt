ghost use Rattle.std.specs.Prelude.{◌≡◌, ◌<◌, IsTrue, IfSome, IsSome, ◌↔◌};
ghost use Rattle.fw_async_fields.specs.Tcode.{code_of, is_known, is_response, has_data, has_quadlet_3};

/// Transaction codes (IEEE 1394-1995, clause 6.2). Code A is isochronous, and the others are reserved.
#[derive(Clone, Copy)]
pub enum Tcode {
    WriteQuadlet = 0,
    WriteBlock = 1,
    WriteReply = 2,
    ReadQuadlet = 4,
    ReadBlock = 5,
    ReadQuadletReply = 6,
    ReadBlockReply = 7,
    CycleStart = 8,
    Lock = 9,
    LockReply = 11,
}

impl Tcode {
    /// The transaction code with this number.
    pub fn from_code(code: u32) -> Option<Tcode>
        ensures known { IsSome result ↔ IsTrue (is_known code) }
        ensures same { IfSome result (λ t. code_of t ≡ code) }
    {
        match code {
            0 => Some(Tcode::WriteQuadlet),
            1 => Some(Tcode::WriteBlock),
            2 => Some(Tcode::WriteReply),
            4 => Some(Tcode::ReadQuadlet),
            5 => Some(Tcode::ReadBlock),
            6 => Some(Tcode::ReadQuadletReply),
            7 => Some(Tcode::ReadBlockReply),
            8 => Some(Tcode::CycleStart),
            9 => Some(Tcode::Lock),
            11 => Some(Tcode::LockReply),
            _ => None,
        }
    }

    /// The number of the transaction code.
    pub fn code(self) -> u32
        ensures value { result ≡ code_of self }
        ensures small { result < 16 }
    {
        self as u32
    }

    /// A response has an rcode, and zeros in place of an offset.
    pub fn is_response(self) -> bool
        ensures { result ≡ is_response (code_of self) }
    {
        matches!(
            self,
            Tcode::WriteReply | Tcode::ReadQuadletReply | Tcode::ReadBlockReply | Tcode::LockReply
        )
    }

    /// A quadlet stands after the first three.
    pub fn has_quadlet_3(self) -> bool
        ensures { result ≡ has_quadlet_3 (code_of self) }
    {
        !matches!(self, Tcode::WriteReply | Tcode::ReadQuadlet)
    }

    /// Data and its padding stand after quadlet 3.
    pub fn has_data(self) -> bool
        ensures { result ≡ has_data (code_of self) }
    {
        matches!(
            self,
            Tcode::WriteBlock | Tcode::ReadBlockReply | Tcode::Lock | Tcode::LockReply
        )
    }
}
