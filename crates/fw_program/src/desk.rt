//! What the program's tapes have recorded, and what its vendors make of a byte (own).

ghost use Rattle.std.specs.Prelude.{◌≡◌, ◌-◌};
ghost use Rattle.fw_program.specs.Blocks.{IsBlock};

/// A block of a frame of a tape: byte j is tape + 3 frame + 5 block + 7 j, modulo 256.
pub fn block_of(tape: u16, frame: u32, block: u16) -> [u8; 480]
    ensures { IsBlock tape frame block result }
{
    let first = u64::from(tape) + 3 * u64::from(frame) + 5 * u64::from(block);
    let mut next = (first % 256) as u8;
    let mut bytes = [0; 480];
    for j in 0..480 {
        bytes[j] = next;
        next = next.wrapping_add(7);
    }
    bytes
}

/// The byte with all its bits inverted, whatever the vendor.
pub fn inverted(byte: u8) -> u8
    ensures { result ≡ 255 - byte }
{
    !byte
}
