ghost use Rattle.std.specs.Prelude.{◌≡◌, ◌<◌};
ghost use Rattle.fw_plug.specs.Units.{units, units_with};

use crate::OutWord;

/// The bandwidth allocation units that the flow of an output plug takes: its overhead, and its payload with the three
/// quadlets of header and CRCs, in the time of a quadlet at 1600 Mbit/s (IEC 61883-1, bandwidth; 512 units at
/// overhead_ID 0 are own).
pub fn units(w: OutWord) -> u32
    ensures { result ≡ units w.0 }
{
    units_with(w.overhead(), w)
}

/// The units that the flow of an output plug takes with another overhead_ID.
pub fn units_with(overhead: u8, w: OutWord) -> u32
    requires { overhead < 16 }
    ensures value { result ≡ units_with overhead w.0 }
{
    let fixed = match overhead {
        0 => 512,
        id => 32 * u32::from(id),
    };
    let payload = match w.payload() {
        0 => 1024,
        quadlets => u32::from(quadlets),
    };
    fixed + ((payload + 3) << (4 - w.rate()))
}
