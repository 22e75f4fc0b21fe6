//! Tables of names.

ghost use Rattle.std.specs.Prelude.{◌≡◌, map};
ghost use Rattle.std.specs.Option.{option_copied, option_map};
ghost use Rattle.fw_text.specs.Names.{name_in};

/// The name in the row with a key, if there is one.
pub fn name_in(mut table: &[(u16, &'static str)], key: u16) -> Option<&'static str>
    ensures { option_copied result ≡ name_in (map (λ r. (r.0, r.1.now)) table.entry.now) key }
{
    while let [row, rest @ ..] = table {
        if key == row.0 {
            return Some(row.1);
        }
        table = rest;
    }
    None
}

/// The two texts in the row with a key, if there is one.
pub fn words_in(
    mut table: &[(u16, &'static str, &'static str)],
    key: u16,
) -> Option<(&'static str, &'static str)>
    ensures first { option_map (λ r. r.0.now) result ≡ name_in (map (λ r. (r.0, r.1.now)) table.entry.now) key }
    ensures second { option_map (λ r. r.1.now) result ≡ name_in (map (λ r. (r.0, r.2.now)) table.entry.now) key }
{
    while let [row, rest @ ..] = table {
        if key == row.0 {
            return Some((row.1, row.2));
        }
        table = rest;
    }
    None
}
