ghost use Rattle.std.specs.Prelude.{◌≡◌};
ghost use Rattle.fw_fcp.specs.Tables.{is_padding};

/// Zeros by which a frame may be longer than the row of the table that it is (own): at most three.
pub fn is_padding(bytes: &[u8]) -> bool
    ensures { result ≡ is_padding bytes.now }
{
    bytes.len() <= 3 && bytes.iter().all(|b| *b == 0)
}
