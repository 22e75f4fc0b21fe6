ghost use Rattle.std.specs.Prelude.{◌≡◌, ◌<◌, ◌==◌};
ghost use Rattle.fw_terms.specs.Labels.{label_code};

/// What a request between nodes is part of. Its packets and their answers say so by their transaction label, tl, which IEEE 1394
/// leaves to the requester (own).
#[derive(Clone, Copy)]
pub enum Label {
    /// A controller's procedure (IEC 61883-1, connection management).
    Procedure,
    /// A transaction of the script, or the write of an FCP frame.
    Script,
    /// The election of the bus manager, a candidate's bid (IEEE 1394-1995, 8.4.2.5).
    BusManager,
}

impl Label {
    /// The transaction label, 0 to 2 of six bits.
    pub fn code(self) -> u8
        ensures code { result ≡ label_code self }
        ensures fits { result < 64 }
    {
        match self {
            Label::Procedure => 0,
            Label::Script => 1,
            Label::BusManager => 2,
        }
    }

    /// The packet with this transaction label is one of these.
    pub fn marks(self, tl: u8) -> bool
        ensures { result ≡ (tl == label_code self) }
    {
        tl == self.code()
    }
}
