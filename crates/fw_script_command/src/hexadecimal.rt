//! Hexadecimal words, in upper and lower case.

ghost use Rattle.std.specs.Prelude.{◌≡◌, [], Some, None, IfSome, IfNone};
ghost use Rattle.fw_script_command.specs.Words.{offset_in, word_in, frame_in};

use fw_words::Bytes;

/// Three digits: a register's offset from FFFF F000 0000.
pub(crate) fn offset(word: &[u8]) -> Option<u16>
    ensures { result ≡ offset_in word.now }
{
    let [a, b, c] = word else {
        return None;
    };
    let mut bytes = [0; 2];
    hex::decode_to_slice([b'0', *a, *b, *c].as_slice(), &mut bytes).ok()?;
    Some(u16::from_be_bytes(bytes))
}

/// Eight digits: the word of a register.
pub(crate) fn word(word: &[u8]) -> Option<u32>
    ensures { result ≡ word_in word.now }
{
    let mut bytes = [0; 4];
    hex::decode_to_slice(word, &mut bytes).ok()?;
    Some(u32::from_be_bytes(bytes))
}

/// Two digits a byte: a frame of 1 to 110 bytes, which is put into `out`.
pub(crate) fn frame(word: &[u8], out: &mut Bytes<110>) -> Option<()>
    requires { out.old ≡ [] }
    ensures some { IfSome result (λ u. frame_in word.now ≡ Some out.new) }
    ensures none { IfNone result (frame_in word.now ≡ None) }
{
    if word.is_empty() || word.len() > 220 {
        return None;
    }
    let mut buffer = [0; 110];
    let bytes = &mut buffer[..word.len() / 2];
    hex::decode_to_slice(word, bytes).ok()?;
    out.append(bytes);
    Some(())
}
