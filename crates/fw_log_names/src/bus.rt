//! The names of what self-ID packets and devices say.

ghost use Rattle.std.specs.Prelude.{◌≡◌};
ghost use Rattle.std.specs.Option.{option_copied};
ghost use Rattle.fw_log_names.specs.Names.{speed_name, port_name, device_name};

use fw_terms::DeviceKind;
use fw_text::name_in;

/// The speed codes of self-ID packets, sp.
pub const SPEEDS: [(u16, &str); 4] = [(0, "S100"), (1, "S200"), (2, "S400"), (3, "beta")];

/// What a self-ID packet says of a port.
pub const PORTS: [(u16, &str); 4] = [
    (0, "none"),
    (1, "not connected"),
    (2, "parent"),
    (3, "child"),
];

/// The name of sp, the speed code of a self-ID packet; each of two bits has one.
pub fn speed_name(sp: u8) -> Option<&'static str>
    ensures { option_copied result ≡ speed_name sp }
{
    name_in(&SPEEDS, u16::from(sp))
}

/// The name of what a self-ID packet says of a port; each of two bits has one.
pub fn port_name(port: u8) -> Option<&'static str>
    ensures { option_copied result ≡ port_name port }
{
    name_in(&PORTS, u16::from(port))
}

/// The name of a device's kind, by its code in a reset entry; 0 to 3 have one.
pub fn device_name(kind: u8) -> Option<&'static str>
    ensures { option_copied result ≡ device_name kind }
{
    Some(DeviceKind::from_code(kind)?.name())
}
