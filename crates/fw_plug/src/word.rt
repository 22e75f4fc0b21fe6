ghost use Rattle.std.specs.Prelude.{◌≡◌, ◌==◌};
ghost use Rattle.fw_words.specs.Quadlet.{field};
ghost use Rattle.fw_plug.specs.Words.{is_connected};

use fw_words::Quadlet;

/// The word of an output plug control register, oPCR (IEC 61883-1).
#[derive(Clone, Copy)]
pub struct OutWord(pub u32);

/// The word of an input plug control register, iPCR (IEC 61883-1).
#[derive(Clone, Copy)]
pub struct InWord(pub u32);

impl OutWord {
    /// The on-line bit.
    pub fn online(self) -> bool
        ensures { result ≡ (field self.0 0 0 == 1) }
    {
        Quadlet(self.0).field(0, 0) == 1
    }

    /// The broadcast connection bit.
    pub fn broadcast(self) -> bool
        ensures { result ≡ (field self.0 1 1 == 1) }
    {
        Quadlet(self.0).field(1, 1) == 1
    }

    /// The point-to-point connection counter, 0 to 63.
    pub fn counter(self) -> u8
        ensures { result ≡ field self.0 2 7 }
    {
        Quadlet(self.0).field(2, 7) as u8
    }

    /// The channel, 0 to 63.
    pub fn channel(self) -> u8
        ensures { result ≡ field self.0 10 15 }
    {
        Quadlet(self.0).field(10, 15) as u8
    }

    /// The data rate: 0, 1 or 2 for 100, 200 or 400 Mbit/s.
    pub fn rate(self) -> u8
        ensures { result ≡ field self.0 16 17 }
    {
        Quadlet(self.0).field(16, 17) as u8
    }

    /// The overhead_ID, 0 to 15.
    pub fn overhead(self) -> u8
        ensures { result ≡ field self.0 18 21 }
    {
        Quadlet(self.0).field(18, 21) as u8
    }

    /// The payload in quadlets a packet, 0 to 1023; 0 stands for 1024.
    pub fn payload(self) -> u16
        ensures { result ≡ field self.0 22 31 }
    {
        Quadlet(self.0).field(22, 31) as u16
    }

    /// A connection stands here: the broadcast connection bit or the point-to-point connection counter is not 0.
    pub fn is_connected(self) -> bool
        ensures { result ≡ is_connected self.0 }
    {
        is_connected(self.0)
    }
}

impl InWord {
    /// The on-line bit.
    pub fn online(self) -> bool
        ensures { result ≡ (field self.0 0 0 == 1) }
    {
        Quadlet(self.0).field(0, 0) == 1
    }

    /// The broadcast connection bit.
    pub fn broadcast(self) -> bool
        ensures { result ≡ (field self.0 1 1 == 1) }
    {
        Quadlet(self.0).field(1, 1) == 1
    }

    /// The point-to-point connection counter, 0 to 63.
    pub fn counter(self) -> u8
        ensures { result ≡ field self.0 2 7 }
    {
        Quadlet(self.0).field(2, 7) as u8
    }

    /// The channel, 0 to 63.
    pub fn channel(self) -> u8
        ensures { result ≡ field self.0 10 15 }
    {
        Quadlet(self.0).field(10, 15) as u8
    }

    /// A connection stands here: the broadcast connection bit or the point-to-point connection counter is not 0.
    pub fn is_connected(self) -> bool
        ensures { result ≡ is_connected self.0 }
    {
        is_connected(self.0)
    }
}

/// The broadcast connection bit or the point-to-point connection counter of a register is not 0.
pub(crate) fn is_connected(word: u32) -> bool
    ensures { result ≡ is_connected word }
{
    Quadlet(word).field(1, 1) == 1 || Quadlet(word).field(2, 7) != 0
}
