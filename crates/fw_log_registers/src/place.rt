//! What stands at an offset.

ghost use Rattle.std.specs.Prelude.{◌≡◌, ◌≤◌};
ghost use Rattle.fw_log_registers.specs.declared.place.RegisterPlace.{RegisterPlace};
ghost use Rattle.fw_log_registers.specs.Places.{place_of, place_among, core_rows, bus_rows, unit_rows, long_rows, index_in, single_or};

use crate::register::NamedRegister;
use fw_csr::offset::*;

/// What stands at an offset of 48 bits in the address space of a node.
#[derive(Clone, Copy)]
pub enum RegisterPlace {
    /// A register, and which of its row it is: 0 for one that stands alone.
    Named(NamedRegister, u16),
    /// No register that has a name: the offset.
    Unnamed(u64),
}

impl RegisterPlace {
    /// What stands at an offset.
    pub fn of(offset: u64) -> RegisterPlace
        ensures { result ≡ place_of offset }
    {
        if let Some(register) = core_register(offset) {
            return RegisterPlace::Named(register, 0);
        }
        if let Some(register) = bus_register(offset) {
            return RegisterPlace::Named(register, 0);
        }
        if let Some(register) = unit_register(offset) {
            return RegisterPlace::Named(register, 0);
        }
        place_in_row(offset)
    }
}

// The registers that each node may have.
fn core_register(offset: u64) -> Option<NamedRegister>
    ensures { (rest : RegisterPlace) → place_among core_rows offset rest ≡ single_or result rest }
{
    Some(match offset {
        STATE_CLEAR => NamedRegister::StateClear,
        STATE_SET => NamedRegister::StateSet,
        NODE_IDS => NamedRegister::NodeIds,
        RESET_START => NamedRegister::ResetStart,
        SPLIT_TIMEOUT_HI => NamedRegister::SplitTimeoutHi,
        SPLIT_TIMEOUT_LO => NamedRegister::SplitTimeoutLo,
        _ => return None,
    })
}

// The registers of the serial bus.
fn bus_register(offset: u64) -> Option<NamedRegister>
    ensures { (rest : RegisterPlace) → place_among bus_rows offset rest ≡ single_or result rest }
{
    Some(match offset {
        CYCLE_TIME => NamedRegister::CycleTime,
        BUS_TIME => NamedRegister::BusTime,
        BUSY_TIMEOUT => NamedRegister::BusyTimeout,
        PRIORITY_BUDGET => NamedRegister::PriorityBudget,
        BUS_MANAGER_ID => NamedRegister::BusManagerId,
        BANDWIDTH_AVAILABLE => NamedRegister::BandwidthAvailable,
        CHANNELS_AVAILABLE_HI => NamedRegister::ChannelsAvailableHi,
        CHANNELS_AVAILABLE_LO => NamedRegister::ChannelsAvailableLo,
        MAINT_UTILITY => NamedRegister::MaintUtility,
        BROADCAST_CHANNEL => NamedRegister::BroadcastChannel,
        _ => return None,
    })
}

// The registers of the bus information block, of plugs and of frames.
fn unit_register(offset: u64) -> Option<NamedRegister>
    ensures { (rest : RegisterPlace) → place_among unit_rows offset rest ≡ single_or result rest }
{
    Some(match offset {
        BUS_NAME => NamedRegister::BusName,
        BUS_OPTIONS => NamedRegister::BusOptions,
        EUI_64_HI => NamedRegister::Eui64Hi,
        EUI_64_LO => NamedRegister::Eui64Lo,
        OMPR => NamedRegister::OutputMasterPlug,
        IMPR => NamedRegister::InputMasterPlug,
        FCP_COMMAND => NamedRegister::FcpCommand,
        FCP_RESPONSE => NamedRegister::FcpResponse,
        _ => return None,
    })
}

// Which quadlet of so many from `first` on begins at an offset.
fn index_in(offset: u64, first: u64, quadlets: u64) -> Option<u16>
    requires { quadlets ≤ 256 }
    ensures { result ≡ index_in first quadlets offset }
{
    let distance = offset.checked_sub(first)?;
    if distance < 4 * quadlets && distance % 4 == 0 {
        Some((distance / 4) as u16)
    } else {
        None
    }
}

fn place_in_row(offset: u64) -> RegisterPlace
    ensures { result ≡ place_among long_rows offset (RegisterPlace.Unnamed offset) }
{
    if let Some(index) = index_in(offset, CONFIG_ROM, 256) {
        return RegisterPlace::Named(NamedRegister::ConfigRom, index);
    }
    if let Some(index) = index_in(offset, OPCR, 31) {
        return RegisterPlace::Named(NamedRegister::OutputPlug, index);
    }
    if let Some(index) = index_in(offset, IPCR, 31) {
        return RegisterPlace::Named(NamedRegister::InputPlug, index);
    }
    if let Some(index) = index_in(offset, TOPOLOGY_MAP, 256) {
        return RegisterPlace::Named(NamedRegister::TopologyMap, index);
    }
    RegisterPlace::Unnamed(offset)
}
