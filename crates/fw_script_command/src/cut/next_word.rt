//! The next word of a line, read as its form asks. None if there is no word, or it is not of this kind.

ghost use Rattle.std.specs.Prelude.{◌≡◌, ◌≤◌, [], Some, None, OnSome, IfSome, IfNone};
ghost use Rattle.fw_script_command.specs.Form.{first_by, after_first};
ghost use Rattle.fw_script_command.specs.Words.{name_in, number_in, place_in, kind_in, speed_in, system_in, channel_in, shown_in, late_in, offset_in, word_in, frame_in};

use super::Pieces;
use crate::Name;
use crate::codes::{channel, kind, late, shown, speed, system};
use crate::hexadecimal::{frame, offset, word};
use crate::words::{name, number, place, small};
use fw_words::Bytes;

impl<'a> Pieces<'a> {
    /// A name.
    #[inline(always)]
    pub(crate) fn name(&mut self) -> Option<Name>
        ensures read { result ≡ first_by name_in self.old }
        ensures left { OnSome result (self.new ≡ after_first self.old) }
    {
        name(self.next()?)
    }

    /// A number from `low` to `high`.
    #[inline(always)]
    pub(crate) fn number(&mut self, low: u32, high: u32) -> Option<u32>
        ensures read { result ≡ first_by (number_in low high) self.old }
        ensures left { OnSome result (self.new ≡ after_first self.old) }
        ensures range { IfSome result (λ n. (low ≤ n) × (n ≤ high)) }
    {
        number(self.next()?, low, high)
    }

    /// A number from `low` to `high`, if these are small.
    #[inline(always)]
    pub(crate) fn small(&mut self, low: u8, high: u8) -> Option<u8>
        ensures read { result ≡ first_by (number_in low high) self.old }
        ensures left { OnSome result (self.new ≡ after_first self.old) }
    {
        small(self.next()?, low, high)
    }

    /// A port or a plug, with a number up to `high`.
    #[inline(always)]
    pub(crate) fn place(&mut self, high: u8) -> Option<(Name, u8)>
        ensures read { result ≡ first_by (place_in high) self.old }
        ensures left { OnSome result (self.new ≡ after_first self.old) }
    {
        place(self.next()?, high)
    }

    /// The code of a kind.
    #[inline(always)]
    pub(crate) fn kind(&mut self) -> Option<u8>
        ensures read { result ≡ first_by kind_in self.old }
        ensures left { OnSome result (self.new ≡ after_first self.old) }
    {
        kind(self.next()?)
    }

    /// The code of a speed.
    #[inline(always)]
    pub(crate) fn speed(&mut self) -> Option<u8>
        ensures read { result ≡ first_by speed_in self.old }
        ensures left { OnSome result (self.new ≡ after_first self.old) }
    {
        speed(self.next()?)
    }

    /// The number of lines of a system.
    #[inline(always)]
    pub(crate) fn system(&mut self) -> Option<u16>
        ensures read { result ≡ first_by system_in self.old }
        ensures left { OnSome result (self.new ≡ after_first self.old) }
    {
        system(self.next()?)
    }

    /// A channel, or no certain one for `any`.
    #[inline(always)]
    pub(crate) fn channel(&mut self) -> Option<Option<u8>>
        ensures read { result ≡ first_by channel_in self.old }
        ensures left { OnSome result (self.new ≡ after_first self.old) }
    {
        channel(self.next()?)
    }

    /// A device, or none for `manager`.
    #[inline(always)]
    pub(crate) fn shown(&mut self) -> Option<Option<Name>>
        ensures read { result ≡ first_by shown_in self.old }
        ensures left { OnSome result (self.new ≡ after_first self.old) }
    {
        shown(self.next()?)
    }

    /// The word `late`.
    #[inline(always)]
    pub(crate) fn late(&mut self) -> Option<bool>
        ensures read { result ≡ first_by late_in self.old }
        ensures left { OnSome result (self.new ≡ after_first self.old) }
    {
        late(self.next()?)
    }

    /// A register's offset.
    #[inline(always)]
    pub(crate) fn offset(&mut self) -> Option<u16>
        ensures read { result ≡ first_by offset_in self.old }
        ensures left { OnSome result (self.new ≡ after_first self.old) }
    {
        offset(self.next()?)
    }

    /// A register's offset, if it is the last word.
    #[inline(always)]
    pub(crate) fn last_offset(&self) -> Option<u16>
        ensures read { IfSome result (λ n. first_by offset_in self.now ≡ Some n) }
        ensures last { OnSome result (after_first self.now ≡ []) }
        ensures none { IfNone result (after_first self.now ≡ [] → first_by offset_in self.now ≡ None) }
    {
        offset(self.whole()?)
    }

    /// The word of a register.
    #[inline(always)]
    pub(crate) fn word(&mut self) -> Option<u32>
        ensures read { result ≡ first_by word_in self.old }
        ensures left { OnSome result (self.new ≡ after_first self.old) }
    {
        word(self.next()?)
    }

    /// A frame, if it is the last word: it is put into `out`.
    #[inline(always)]
    pub(crate) fn last_frame(&self, out: &mut Bytes<110>) -> Option<()>
        requires { out.old ≡ [] }
        ensures read { IfSome result (λ u. first_by frame_in self.now ≡ Some out.new) }
        ensures last { OnSome result (after_first self.now ≡ []) }
        ensures none { IfNone result (after_first self.now ≡ [] → first_by frame_in self.now ≡ None) }
    {
        frame(self.whole()?, out)
    }
}
