ghost use Rattle.std.specs.Prelude.{◌≡◌, ◌<◌, ◌*◌};
ghost use Rattle.fw_tape.specs.Systems.{frames_per_day};
ghost use Rattle.fw_tape.specs.TimeCodes.{bcd, time_code};

use crate::TapeSystem;

/// A number of two decimal digits, four bits each.
fn bcd(n: u32) -> u8
    requires { n < 100 }
    ensures { result ≡ bcd n }
{
    (n / 10 * 16 + n % 10) as u8
}

/// The time code of a frame: the frame of the second, second, minute and hour.
pub(crate) fn time_code(system: TapeSystem, frame: u32) -> [u8; 4]
    requires { frame < frames_per_day system }
    ensures { result ≡ time_code system frame }
{
    let rate = system.frames_per_second();
    let seconds = frame / rate;
    [
        bcd(frame % rate),
        bcd(seconds % 60),
        bcd(seconds / 60 % 60),
        bcd(seconds / 3600),
    ]
}
