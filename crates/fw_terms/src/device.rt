ghost use Rattle.std.specs.Prelude.{◌≡◌, ◌≤◌, ◌↔◌, IfSome, IsNone};
ghost use Rattle.std.specs.Str.{bytes_eq};
ghost use Rattle.fw_terms.specs.Devices.{code_of, kind_with, kind_coded, name_of, kind_named, has_link, is_contender, is_capable, has_unit, output_plugs_of, input_plugs_of};

/// The kinds of devices (own). Each but a relay has a link (L) and a controller of its own.
#[derive(Clone, Copy)]
pub enum DeviceKind {
    /// Joins cables, and has no link.
    Relay,
    /// A tape deck: one output plug, one input plug, and a contender (c).
    Deck,
    /// A tape deck that is no contender.
    Camcorder,
    /// A contender with four input plugs and no tape, and the one kind with the capabilities of a bus manager.
    Computer,
}

impl DeviceKind {
    /// The kind with this code. None exactly if the code is above 3.
    pub fn from_code(code: u8) -> Option<DeviceKind>
        ensures value { result ≡ kind_coded code }
        ensures kind { IfSome result (λ kind. code_of kind ≡ code) }
        ensures none { IsNone result ↔ (4 ≤ code) }
    {
        if code <= 3 {
            Some(DeviceKind::with_code(code))
        } else {
            None
        }
    }

    /// The kind with this code, 0 to 3.
    pub fn with_code(code: u8) -> DeviceKind
        requires { code ≤ 3 }
        ensures kind { result ≡ kind_with code }
        ensures code { code_of result ≡ code }
    {
        match code {
            0 => DeviceKind::Relay,
            1 => DeviceKind::Deck,
            2 => DeviceKind::Camcorder,
            _ => DeviceKind::Computer,
        }
    }

    /// The kind with this name (`name`).
    pub fn named(name: &[u8]) -> Option<DeviceKind>
        ensures { result ≡ kind_named name.now }
    {
        if DeviceKind::Relay.is_named(name) {
            Some(DeviceKind::Relay)
        } else if DeviceKind::Deck.is_named(name) {
            Some(DeviceKind::Deck)
        } else if DeviceKind::Camcorder.is_named(name) {
            Some(DeviceKind::Camcorder)
        } else if DeviceKind::Computer.is_named(name) {
            Some(DeviceKind::Computer)
        } else {
            None
        }
    }

    /// This is the kind's name.
    fn is_named(self, name: &[u8]) -> bool
        ensures { result ≡ bytes_eq name.now (name_of self) }
    {
        name == self.name().as_bytes()
    }

    /// The kind's code, 0 to 3.
    pub fn code(self) -> u8
        ensures { result ≡ code_of self }
    {
        match self {
            DeviceKind::Relay => 0,
            DeviceKind::Deck => 1,
            DeviceKind::Camcorder => 2,
            DeviceKind::Computer => 3,
        }
    }

    /// The kind's name, in scripts and in texts.
    pub fn name(self) -> &'static str
        ensures { result.now ≡ name_of self }
    {
        match self {
            DeviceKind::Relay => "relay",
            DeviceKind::Deck => "deck",
            DeviceKind::Camcorder => "camcorder",
            DeviceKind::Computer => "computer",
        }
    }

    /// The device has a link, so that its node answers packets: L of its self-ID packet.
    pub fn has_link(self) -> bool
        ensures { result ≡ has_link self }
    {
        !matches!(self, DeviceKind::Relay)
    }

    /// The device may become the isochronous resource manager: c of its self-ID packet.
    pub fn is_contender(self) -> bool
        ensures { result ≡ is_contender self }
    {
        matches!(self, DeviceKind::Deck | DeviceKind::Computer)
    }

    /// The device has the capabilities of a bus manager.
    pub fn is_capable(self) -> bool
        ensures { result ≡ is_capable self }
    {
        matches!(self, DeviceKind::Computer)
    }

    /// The device is an AV/C unit with a tape subunit.
    pub fn has_unit(self) -> bool
        ensures { result ≡ has_unit self }
    {
        matches!(self, DeviceKind::Deck | DeviceKind::Camcorder)
    }

    /// How many output plugs the device has.
    pub fn output_plugs(self) -> u8
        ensures value { result ≡ output_plugs_of self }
        ensures few { result ≤ 31 }
    {
        match self {
            DeviceKind::Relay | DeviceKind::Computer => 0,
            DeviceKind::Deck | DeviceKind::Camcorder => 1,
        }
    }

    /// How many input plugs the device has.
    pub fn input_plugs(self) -> u8
        ensures value { result ≡ input_plugs_of self }
        ensures few { result ≤ 31 }
    {
        match self {
            DeviceKind::Relay => 0,
            DeviceKind::Deck | DeviceKind::Camcorder => 1,
            DeviceKind::Computer => 4,
        }
    }
}
