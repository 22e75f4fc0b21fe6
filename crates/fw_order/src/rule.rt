/// The rules by which commands are refused, in the order in which they are tested: if a command breaks several, the first is told.
#[derive(Clone, Copy)]
pub enum RuleFault {
    /// A named device is not declared.
    UnknownName,
    /// `device` names one that is declared.
    NameTaken,
    /// `device` would make the 64th.
    TooMany,
    /// `insert`, `eject`, `dub`: the device is a computer or a relay, which has no tape.
    NoDeck,
    /// `cable`: one of the devices has no such port.
    NoPort,
    /// `cable`: one of the ports has a cable, or both ends are one port.
    PortUsed,
    /// `cable`: the two devices are connected already, or are one.
    Loop,
    /// `connect`, `broadcast`, `listen`, `break`, `step`, `die`, `lose`, `command`, `read`, `swap`, `candidate`, `contend`: the
    /// first device has no living controller. `start`: it is a relay, or off.
    NotController,
    /// `lose`: no request of the controller's procedure stands.
    NothingStands,
    /// `reset`, `dub`: the device is off. `command`, `read`, `swap`: the second device is off or a relay. `show`: the device is.
    OffBus,
    /// `broadcast`, `listen`: the plug is another device's.
    NotOwnPlug,
    /// `break`: the slot's connection does not stand and is not to be restored, or a break of it waits or is current.
    NoSuchConnection,
    /// All 32 slots of the controller are in use.
    TableFull,
    /// Eight jobs of the controller wait.
    Busy,
    /// `candidate`: the device is no computer, and so has not the capabilities of a bus manager.
    NotCapable,
    /// `contend`: the device is no candidate for the bus manager.
    NotCandidate,
    /// `swap` at a register that only controllers' procedures swap: those of channels and units, and of plugs;
    /// and BUS_MANAGER_ID from the first candidate on.
    Guarded,
    /// `show`: there is no isochronous resource manager if it is asked for, or a quadlet read of the register would not
    /// be complete.
    NoRegister,
    /// More written cycles, bus resets or half steps than a script may have (`limits.rt`), or a cycle number above 2 to the
    /// power 52. A lost response counts as a bus reset, and the one that its controller forces then does not count. The
    /// command that would pass a limit is refused whole.
    Limit,
    /// `withhold`: a device is declared.
    TooLate,
}
