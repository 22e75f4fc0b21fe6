/// What a device's PHY says of itself in its self-ID packets.
#[derive(Clone, Copy, PartialEq, Eq)]
pub struct PhyFacts {
    /// How many ports, 1 to 27.
    pub ports: u8,
    /// 0, 1, 2 for 100, 200, 400 Mbit/s.
    pub speed: u8,
    /// L: the link is active.
    pub link: bool,
    /// c: it may become the isochronous resource manager.
    pub contender: bool,
}

/// A port of a device.
#[derive(Clone, Copy, PartialEq, Eq)]
pub struct End {
    /// The device, in order of declaration from 0.
    pub device: u8,
    /// The port, from 0.
    pub port: u8,
}

/// The far end of the cable at each port of a device; None if no cable is.
pub type DeviceCables = [Option<End>; 27];

/// The cables of each device.
pub type AllCables = [DeviceCables; 63];
