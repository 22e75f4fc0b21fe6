//! Nodes by their numbers, and their plugs: most numbers of nodes have two digits, and most numbers of plugs one, and what has so many
//! is appended at once.

ghost use Rattle.std.specs.Prelude.{◌≡◌, ◌<◌, ◌++◌, ◌∷◌, OnOk, codes, decimal};
ghost use Rattle.fw_watch_remarks.specs.Parts.{part, who_text};

use crate::parts::put_small;
use fw_log_names::{Pairs, put_node, put_number, put_word};
use std::alloc::AllocError;

// Appends a node by its number.
#[inline(always)]
#[tactic(auto, using(fw_text::proofs::DecimalLaws::two_digits))]
fn put_node_number(text: &mut Vec<u8>, node: u8) -> Result<(), AllocError>
    ensures { OnOk result (text.new.items ≡ text.old.items ++ part (codes "node ") node) }
{
    if node < 10 || node >= 100 {
        return put_small(text, "node ", node);
    }
    text.extend_from_slice(&[
        b'n',
        b'o',
        b'd',
        b'e',
        b' ',
        b'0' + node / 10,
        b'0' + node % 10,
    ])
}

/// Appends who asked for something.
#[tactic(auto, unfolding(crate::specs::Parts::who_text))]
pub fn put_who(text: &mut Vec<u8>, pairs: &Pairs, by: u16) -> Result<(), AllocError>
    ensures { OnOk result (text.new.items ≡ text.old.items ++ who_text by) }
{
    if by == 0xFFFF {
        put_word(text, "node_ID ffff")
    } else if by >= 0xFFC0 {
        put_node_number(text, (by - 0xFFC0) as u8)
    } else {
        put_node(text, pairs, by)
    }
}

/// Appends an oPCR or an iPCR, of which this is the first letter, by its number and its node.
#[inline(always)]
#[tactic(auto, using(std::proofs::lemmas::Fmt::decimal_digit, fw_text::proofs::DecimalLaws::two_digits))]
pub fn put_plug_of_node(
    text: &mut Vec<u8>,
    letter: u8,
    number: u8,
    node: u8,
) -> Result<(), AllocError>
    requires { number < 10 }
    ensures { OnOk result (text.new.items ≡ text.old.items ++ (letter ∷ codes "PCR[" ++ decimal number ++ codes "] of node " ++ decimal node)) }
{
    let digit = b'0' + number;
    if node < 10 || node >= 100 {
        text.extend_from_slice(&[
            letter, b'P', b'C', b'R', b'[', digit, b']', b' ', b'o', b'f', b' ', b'n', b'o', b'd',
            b'e', b' ',
        ])?;
        return put_number(text, u64::from(node));
    }
    text.extend_from_slice(&[
        letter,
        b'P',
        b'C',
        b'R',
        b'[',
        digit,
        b']',
        b' ',
        b'o',
        b'f',
        b' ',
        b'n',
        b'o',
        b'd',
        b'e',
        b' ',
        b'0' + node / 10,
        b'0' + node % 10,
    ])
}
