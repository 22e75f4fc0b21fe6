/// An output or input plug of a device: the device by its number in order of declaration, 0 to 62, and the plug
/// by its number on that device, 0 to 30 (IEC 61883-1, plugs).
#[derive(Clone, Copy)]
pub struct PlugAt {
    pub device: u8,
    pub plug: u8,
}

/// How a connection stands in a plug control register (IEC 61883-1, point-to-point and broadcast connections).
#[derive(Clone, Copy)]
pub enum ConnectionKind {
    /// One count of the point-to-point connection counter.
    PointToPoint,
    /// The broadcast connection bit.
    Broadcast,
}
