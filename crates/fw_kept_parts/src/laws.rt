ghost use Rattle.std.specs.Prelude.{◌≡◌, ◌<◌, ◌^◌, ℕ, List, slice_index};
ghost use Rattle.fw_kept_parts.specs.Words.{bytes_of, words_of};

/// A law: what was put as bytes is read back.
pub fn numbers_are_read_back()
    ensures { (words : List ℕ) → ((k : ℕ) → slice_index words k < 2 ^ 32) → words_of (bytes_of words) ≡ words }
{}
