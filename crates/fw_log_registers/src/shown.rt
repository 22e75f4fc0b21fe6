//! How the value of a field is shown.

ghost use Rattle.std.specs.Prelude.{◌≡◌, ◌++◌};
ghost use Rattle.fw_log_registers.specs.Words.{less, more, noun, value_text};

use fw_text::{Text, name_in};

/// The names of a plug register's data rates.
pub const RATES: [(u16, &str); 4] = [(0, "S100"), (1, "S200"), (2, "S400"), (3, "3")];

/// If no node is bus manager, BUS_MANAGER_ID has this number (IEEE 1394-1995, 8.3.2.3.6).
const NO_NODE: u32 = 63;

/// What a field counts, so that a swap takes or adds so many.
#[derive(Clone, Copy)]
pub enum Amount {
    /// Bandwidth allocation units.
    Units,
    /// Broadcast connections of a plug.
    BroadcastConnections,
    /// Point-to-point connections of a plug.
    PointToPointConnections,
}

impl Amount {
    // What a swap does that leaves fewer.
    pub(crate) fn less(self) -> &'static str
        ensures { result.now ≡ less self }
    {
        match self {
            Amount::Units => "takes",
            Amount::BroadcastConnections | Amount::PointToPointConnections => "removes",
        }
    }

    // What a swap does that leaves more.
    pub(crate) fn more(self) -> &'static str
        ensures { result.now ≡ more self }
    {
        match self {
            Amount::Units => "gives back",
            Amount::BroadcastConnections | Amount::PointToPointConnections => "adds",
        }
    }

    // What is counted.
    pub(crate) fn noun(self) -> &'static str
        ensures { result.now ≡ noun self }
    {
        match self {
            Amount::Units => "unit",
            Amount::BroadcastConnections => "broadcast connection",
            Amount::PointToPointConnections => "point-to-point connection",
        }
    }
}

/// How the value of a field is shown.
#[derive(Clone, Copy)]
pub enum Shown {
    /// In decimal digits.
    Decimal,
    /// A company, of 24 bits, in six hexadecimal digits.
    Company,
    /// A data rate by its name.
    Rate,
    /// A node's number, or none.
    Node,
    /// In decimal digits; a change of it as the difference.
    Counted(Amount),
}

// Says the value of a field.
pub(crate) fn put_value(text: &mut Text, shown: Shown, value: u32)
    ensures { text.new ≡ text.old ++ value_text shown value }
{
    match shown {
        Shown::Decimal | Shown::Counted(_) => text.number(u64::from(value)),
        Shown::Company => text.hex6(value),
        Shown::Rate => put_rate(text, value),
        Shown::Node => put_manager(text, value),
    }
}

fn put_rate(text: &mut Text, rate: u32)
    ensures { text.new ≡ text.old ++ value_text Shown.Rate rate }
{
    let name = match u16::try_from(rate) {
        Ok(rate) => name_in(&RATES, rate),
        Err(_) => None,
    };
    text.named(name, "rate", u64::from(rate));
}

fn put_manager(text: &mut Text, node: u32)
    ensures { text.new ≡ text.old ++ value_text Shown.Node node }
{
    if node == NO_NODE {
        return text.word("none");
    }
    text.word("node ");
    text.number(u64::from(node));
}
