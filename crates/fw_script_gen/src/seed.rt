//! The script that a seed makes.

ghost use Rattle.std.specs.Prelude.{ℕ, ◌≡◌, ◌+◌, ◌≤◌, ◌<◌, ◌++◌, IfOk, OnOk, string_bytes};
ghost use Rattle.fw_script_gen.specs.Gen.{state_of, number_of, kind_text, device_line, cable_line, devices_text, connect_lines, connections_text, script_of};

use std::alloc::{AllocError, Global};

/// How many devices there are beside the first, which is a deck.
const FURTHER_DEVICES: u32 = 59;

/// How many connections are made.
const CONNECTIONS: u32 = 30;

/// Draws numbers, by a linear congruential generator of 32 bits.
#[derive(Drop)]
struct Draws {
    state: u32,
}

impl Draws {
    // The next number below a limit. The generator's high bits give it, since its low ones repeat after few draws.
    fn below(&mut self, limit: u32) -> u32
        requires { 0 < limit }
        ensures next { (seed n : ℕ) → self.old.state ≡ state_of seed n → self.new.state ≡ state_of seed (n + 1) }
        ensures number { result ≡ number_of self.new.state limit }
    {
        let product = self.state.wrapping_mul(1_664_525);
        self.state = product.wrapping_add(1_013_904_223);
        (self.state / 65_536) % limit
    }
}

// A device of the kind that was drawn.
fn put_device(text: &mut String, i: u32, kind: u32) -> Result<(), AllocError>
    ensures { OnOk result (string_bytes text.new ≡ string_bytes text.old ++ device_line i (kind_text kind)) }
{
    match kind {
        0 => write!(text, "device d{i} deck 3 400\n"),
        1 => write!(text, "device d{i} camcorder 3 400\n"),
        _ => write!(text, "device d{i} computer 3 400\n"),
    }
}

fn put_cable(text: &mut String, i: u32) -> Result<(), AllocError>
    requires { 1 ≤ i }
    ensures { OnOk result (string_bytes text.new ≡ string_bytes text.old ++ cable_line i) }
{
    let parent = (i - 1) / 2;
    let port = 2 - i % 2;
    write!(text, "cable d{parent}.{port} d{i}.0\n")
}

fn put_connection(text: &mut String, x: u32, y: u32, z: u32) -> Result<(), AllocError>
    ensures { OnOk result (string_bytes text.new ≡ string_bytes text.old ++ connect_lines x y z) }
{
    write!(text, "connect d{x} d{y}.0 d{z}.0 any 8\n")?;
    write!(text, "settle 40\n")
}

// The devices, and their cables.
fn put_devices(text: &mut String, draws: &mut Draws) -> Result<(), AllocError>
    ensures text { (seed : ℕ) → draws.old.state ≡ state_of seed 0 → OnOk result (string_bytes text.new ≡ string_bytes text.old ++ devices_text seed 59) }
    ensures drawn { (seed : ℕ) → draws.old.state ≡ state_of seed 0 → OnOk result (draws.new.state ≡ state_of seed 59) }
{
    put_device(text, 0, 0)?;
    for i in 0..FURTHER_DEVICES {
        let kind = draws.below(3);
        put_device(text, i + 1, kind)?;
        put_cable(text, i + 1)?;
    }
    Ok(())
}

// The connections.
fn put_connections(text: &mut String, draws: &mut Draws) -> Result<(), AllocError>
    ensures { (seed : ℕ) → draws.old.state ≡ state_of seed 59 → OnOk result (string_bytes text.new ≡ string_bytes text.old ++ connections_text seed 30) }
{
    for _j in 0..CONNECTIONS {
        let x = draws.below(60);
        let y = draws.below(60);
        let z = draws.below(60);
        put_connection(text, x, y, z)?;
    }
    Ok(())
}

/// The script that a seed makes: sixty devices in a tree, of kinds that are drawn, thirty connections between devices that
/// are drawn, and a bus reset. An error says that memory ran out, and comes for nothing else.
pub fn gen_script(alloc: Global, seed: u32) -> Result<Vec<u8>, AllocError>
    ensures { IfOk result (λ bytes. bytes.items ≡ script_of seed) }
{
    let mut draws = Draws { state: seed };
    let mut text = String::new(alloc);
    put_devices(&mut text, &mut draws)?;
    text.push_str("wait 8000\n")?;
    put_connections(&mut text, &mut draws)?;
    text.push_str("reset d0\nsettle 4000\nwait 8000\nshow manager 220\nend\n")?;
    Ok(text.into_bytes())
}
