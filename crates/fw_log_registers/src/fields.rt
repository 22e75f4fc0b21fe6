//! The fields of registers, in the order in which they are told: tables, which the definitions read too.

ghost use Rattle.std.specs.Prelude.{◌≡◌, ◌++◌, true, flat_map, map};
ghost use Rattle.std.specs.List.{list_all};
ghost use Rattle.fw_log_registers.specs.Words.{told_field, is_field, field_at, fields_of, told_register};

use crate::channels::put_set;
use crate::register::NamedRegister;
use crate::shown::{Amount, Shown};
use crate::told::{Field, RegisterValue, put_field};
use fw_text::Text;

/// The first channel of CHANNELS_AVAILABLE_HI, and that of CHANNELS_AVAILABLE_LO.
const HIGH_CHANNELS: u8 = 0;

const LOW_CHANNELS: u8 = 32;

/// BANDWIDTH_AVAILABLE.
pub const BANDWIDTH: [Field; 1] = [("units left", 19, 31, Shown::Counted(Amount::Units))];

/// BUS_MANAGER_ID.
pub const BUS_MANAGER: [Field; 1] = [("bus manager", 26, 31, Shown::Node)];

/// An output plug control register (IEC 61883-1, 7.7).
pub const OUTPUT_PLUG: [Field; 7] = [
    ("on-line", 0, 0, Shown::Decimal),
    (
        "broadcast",
        1,
        1,
        Shown::Counted(Amount::BroadcastConnections),
    ),
    (
        "point-to-point",
        2,
        7,
        Shown::Counted(Amount::PointToPointConnections),
    ),
    ("channel", 10, 15, Shown::Decimal),
    ("rate", 16, 17, Shown::Rate),
    ("overhead_ID", 18, 21, Shown::Decimal),
    ("payload", 22, 31, Shown::Decimal),
];

/// An input plug control register (IEC 61883-1, 7.9).
pub const INPUT_PLUG: [Field; 4] = [
    ("on-line", 0, 0, Shown::Decimal),
    (
        "broadcast",
        1,
        1,
        Shown::Counted(Amount::BroadcastConnections),
    ),
    (
        "point-to-point",
        2,
        7,
        Shown::Counted(Amount::PointToPointConnections),
    ),
    ("channel", 10, 15, Shown::Decimal),
];

/// The output master plug register (IEC 61883-1, 7.6).
pub const OUTPUT_MASTER: [Field; 3] = [
    ("rate", 0, 1, Shown::Rate),
    ("broadcast base", 2, 7, Shown::Decimal),
    ("plugs", 27, 31, Shown::Decimal),
];

/// The input master plug register (IEC 61883-1, 7.8).
pub const INPUT_MASTER: [Field; 2] = [
    ("rate", 0, 1, Shown::Rate),
    ("plugs", 27, 31, Shown::Decimal),
];

/// NODE_IDS (IEEE 1394-1995, 8.3.2, as those below).
pub const NODE_IDS: [Field; 2] = [
    ("bus_ID", 0, 9, Shown::Decimal),
    ("physical_ID", 10, 15, Shown::Decimal),
];

/// SPLIT_TIMEOUT_HI.
pub const TIMEOUT_HI: [Field; 1] = [("seconds", 29, 31, Shown::Decimal)];

/// SPLIT_TIMEOUT_LO.
pub const TIMEOUT_LO: [Field; 1] = [("cycles", 0, 12, Shown::Decimal)];

/// CYCLE_TIME.
pub const CYCLE_TIME: [Field; 3] = [
    ("second_count", 0, 6, Shown::Decimal),
    ("cycle_count", 7, 19, Shown::Decimal),
    ("cycle_offset", 20, 31, Shown::Decimal),
];

/// The bus options.
pub const BUS_OPTIONS: [Field; 4] = [
    ("irmc", 0, 0, Shown::Decimal),
    ("cmc", 1, 1, Shown::Decimal),
    ("isc", 2, 2, Shown::Decimal),
    ("bmc", 3, 3, Shown::Decimal),
];

/// The high quadlet of the EUI-64.
pub const EUI64_HI: [Field; 1] = [("vendor", 0, 23, Shown::Company)];

// The fields of a register.
fn fields_of(register: NamedRegister) -> &'static [Field]
    ensures fields { map (λ f. field_at f.0.now f.1 f.2 f.3) result.now ≡ fields_of register }
    ensures exact { list_all is_field (map (λ f. field_at f.0.now f.1 f.2 f.3) result.now) ≡ true }
{
    match register {
        NamedRegister::BandwidthAvailable => &BANDWIDTH,
        NamedRegister::BusManagerId => &BUS_MANAGER,
        NamedRegister::OutputPlug => &OUTPUT_PLUG,
        NamedRegister::InputPlug => &INPUT_PLUG,
        NamedRegister::OutputMasterPlug => &OUTPUT_MASTER,
        NamedRegister::InputMasterPlug => &INPUT_MASTER,
        NamedRegister::NodeIds => &NODE_IDS,
        NamedRegister::SplitTimeoutHi => &TIMEOUT_HI,
        NamedRegister::SplitTimeoutLo => &TIMEOUT_LO,
        NamedRegister::CycleTime => &CYCLE_TIME,
        NamedRegister::BusOptions => &BUS_OPTIONS,
        NamedRegister::Eui64Hi => &EUI64_HI,
        _ => &[],
    }
}

// Says what is told of fields.
fn put_fields(text: &mut Text, told: RegisterValue, mut fields: &[Field])
    requires { list_all is_field (map (λ f. field_at f.0.now f.1 f.2 f.3) fields.now) ≡ true }
    ensures { text.new ≡ text.old ++ flat_map (told_field told) (map (λ f. field_at f.0.now f.1 f.2 f.3) fields.entry.now) }
{
    while let [field, rest @ ..] = fields {
        put_field(text, told, field);
        fields = rest;
    }
}

// Says what is told of a register.
pub(crate) fn put_register(text: &mut Text, told: RegisterValue, register: NamedRegister)
    ensures { text.new ≡ text.old ++ told_register told register }
{
    match register {
        NamedRegister::ChannelsAvailableHi => put_set(text, told, HIGH_CHANNELS),
        NamedRegister::ChannelsAvailableLo => put_set(text, told, LOW_CHANNELS),
        other => put_fields(text, told, fields_of(other)),
    }
}
