ghost use Rattle.std.specs.Prelude.{◌≡◌, ◌==◌, ◌&&◌, false};
ghost use Rattle.fw_csr.specs.Replies.{reply_at, word_after};
ghost use Rattle.fw_csr.specs.declared.register.RegisterAccess.TheVariants.{ReadSwap};
ghost use Rattle.fw_plug.specs.Plugs.{is_active, plug_after_reset, plug_after_second};

use crate::connection::disconnected;
use crate::word::is_connected;
use fw_csr::{RegisterRequest, Reply, Word};

/// A plug with its control register (IEC 61883-1, 7).
#[derive(Clone, Copy, PartialEq, Eq)]
pub struct Plug {
    pub word: Word,
    /// It goes on talking, or hearing, since a bus reset.
    pub lingers: bool,
}

/// What fills the free places of a list; it has no meaning of its own.
impl Default for Plug {
    fn default() -> Self
        ensures { result ≡ record { word = 0; lingers = false } }
    {
        Plug::new(0)
    }
}

impl Plug {
    /// A plug whose register has this word, and that does not linger.
    pub fn new(word: u32) -> Plug
        ensures { result ≡ record { word = word; lingers = false } }
    {
        Plug {
            word: Word::new(word),
            lingers: false,
        }
    }

    /// An output plug talks, an input plug hears: it is connected, or it lingers.
    pub fn is_active(self) -> bool
        ensures { result ≡ is_active self.word self.lingers }
    {
        is_connected(self.word.get()) || self.lingers
    }

    /// Carries a request at the register out. A plug whose word it changes lingers no more.
    pub fn answer<R: RegisterRequest>(&mut self, r: &R) -> Reply
        ensures reply { result ≡ reply_at (ReadSwap self.old.word) (R.request r.now) }
        ensures word { self.new.word ≡ word_after self.old.word (R.request r.now) }
        ensures lingers { self.new.lingers ≡ ((word_after self.old.word (R.request r.now) == self.old.word) && self.old.lingers) }
    {
        let before = self.word.get();
        let reply = self.word.answer(r);
        if self.word.get() != before {
            self.lingers = false;
        }
        reply
    }

    /// The plug after a bus reset: it is not connected, and it lingers if it was active.
    pub fn after_reset(self) -> Plug
        ensures { result ≡ plug_after_reset self }
    {
        Plug {
            word: Word::new(disconnected(self.word.get())),
            lingers: self.is_active(),
        }
    }

    /// The plug when the second after a bus reset is over: it does not linger.
    pub fn after_second(self) -> Plug
        ensures { result ≡ plug_after_second self }
    {
        let mut plug = self;
        plug.lingers = false;
        plug
    }
}
