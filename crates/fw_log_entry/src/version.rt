//! The versions of the log (own).

ghost use Rattle.std.specs.Prelude.{◌≡◌};
ghost use Rattle.fw_log_entry.specs.Log.{number_of, version_of, head_size};

/// Which form the header and the entries of a log have.
#[derive(Clone, Copy)]
pub enum Version {
    /// Version 1: the head of an entry has no epoch.
    One,
    /// Version 2: the head of an entry has the epoch of the latest bus reset up to and including the entry.
    Two,
}

impl Version {
    /// The number by which the header names it.
    pub fn number(self) -> u32
        ensures { result ≡ number_of self }
    {
        match self {
            Version::One => 1,
            Version::Two => 2,
        }
    }

    /// The version that a header names by this number, if there is one.
    pub fn of_number(number: u32) -> Option<Version>
        ensures { result ≡ version_of number }
    {
        match number {
            1 => Some(Version::One),
            2 => Some(Version::Two),
            _ => None,
        }
    }

    /// How many bytes of an entry stand before its body.
    pub fn head_size(self) -> usize
        ensures { result ≡ head_size self }
    {
        match self {
            Version::One => 12,
            Version::Two => 16,
        }
    }
}
