//! The registers that have a name.

ghost use Rattle.std.specs.Prelude.{◌≡◌};

/// A register of a node, or a row of registers of one kind (IEEE 1212; IEEE 1394-1995, 8.3.2; IEC 61883-1, 7 and 9).
#[derive(Clone, Copy)]
pub enum NamedRegister {
    /// STATE_CLEAR.
    StateClear,
    /// STATE_SET.
    StateSet,
    /// NODE_IDS: the node's bus and its number.
    NodeIds,
    /// RESET_START.
    ResetStart,
    /// SPLIT_TIMEOUT_HI: the seconds after which a split transaction fails.
    SplitTimeoutHi,
    /// SPLIT_TIMEOUT_LO: the cycles beside them.
    SplitTimeoutLo,
    /// CYCLE_TIME.
    CycleTime,
    /// BUS_TIME.
    BusTime,
    /// BUSY_TIMEOUT.
    BusyTimeout,
    /// PRIORITY_BUDGET.
    PriorityBudget,
    /// BUS_MANAGER_ID: the number of the bus manager.
    BusManagerId,
    /// BANDWIDTH_AVAILABLE: the bandwidth allocation units that are left.
    BandwidthAvailable,
    /// CHANNELS_AVAILABLE_HI: which of channels 0 to 31 are free.
    ChannelsAvailableHi,
    /// CHANNELS_AVAILABLE_LO: which of channels 32 to 63 are free.
    ChannelsAvailableLo,
    /// MAINT_UTILITY.
    MaintUtility,
    /// BROADCAST_CHANNEL.
    BroadcastChannel,
    /// The bus name, first quadlet of the bus information block.
    BusName,
    /// The bus options, its second quadlet.
    BusOptions,
    /// The high quadlet of the EUI-64.
    Eui64Hi,
    /// The low quadlet of the EUI-64.
    Eui64Lo,
    /// All other quadlets of the configuration ROM.
    ConfigRom,
    /// oMPR, the output master plug register.
    OutputMasterPlug,
    /// oPCR, the 31 output plug control registers.
    OutputPlug,
    /// iMPR, the input master plug register.
    InputMasterPlug,
    /// iPCR, the 31 input plug control registers.
    InputPlug,
    /// Where FCP command frames are written.
    FcpCommand,
    /// Where FCP response frames are written.
    FcpResponse,
    /// The topology map, 256 quadlets.
    TopologyMap,
}

impl NamedRegister {
    ghost use Rattle.fw_log_registers.specs.Words.{register_name, is_row};

    /// Its name in the standards.
    pub fn name(self) -> &'static str
        ensures { result.now ≡ register_name self }
    {
        match self {
            NamedRegister::StateClear => "STATE_CLEAR",
            NamedRegister::StateSet => "STATE_SET",
            NamedRegister::NodeIds => "NODE_IDS",
            NamedRegister::ResetStart => "RESET_START",
            NamedRegister::SplitTimeoutHi => "SPLIT_TIMEOUT_HI",
            NamedRegister::SplitTimeoutLo => "SPLIT_TIMEOUT_LO",
            NamedRegister::CycleTime => "CYCLE_TIME",
            NamedRegister::BusTime => "BUS_TIME",
            NamedRegister::BusyTimeout => "BUSY_TIMEOUT",
            NamedRegister::PriorityBudget => "PRIORITY_BUDGET",
            NamedRegister::BusManagerId => "BUS_MANAGER_ID",
            NamedRegister::BandwidthAvailable => "BANDWIDTH_AVAILABLE",
            NamedRegister::ChannelsAvailableHi => "CHANNELS_AVAILABLE_HI",
            NamedRegister::ChannelsAvailableLo => "CHANNELS_AVAILABLE_LO",
            NamedRegister::MaintUtility => "MAINT_UTILITY",
            NamedRegister::BroadcastChannel => "BROADCAST_CHANNEL",
            NamedRegister::BusName => "bus_name",
            NamedRegister::BusOptions => "bus_options",
            NamedRegister::Eui64Hi => "EUI_64_HI",
            NamedRegister::Eui64Lo => "EUI_64_LO",
            NamedRegister::ConfigRom => "CONFIG_ROM",
            NamedRegister::OutputMasterPlug => "oMPR",
            NamedRegister::OutputPlug => "oPCR",
            NamedRegister::InputMasterPlug => "iMPR",
            NamedRegister::InputPlug => "iPCR",
            NamedRegister::FcpCommand => "FCP_COMMAND",
            NamedRegister::FcpResponse => "FCP_RESPONSE",
            NamedRegister::TopologyMap => "TOPOLOGY_MAP",
        }
    }

    // There is more than one of it.
    pub(crate) fn is_row(self) -> bool
        ensures { result ≡ is_row self }
    {
        matches!(
            self,
            NamedRegister::ConfigRom
                | NamedRegister::OutputPlug
                | NamedRegister::InputPlug
                | NamedRegister::TopologyMap
        )
    }
}
