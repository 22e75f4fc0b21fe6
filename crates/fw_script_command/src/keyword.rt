//! The first words of lines.

ghost use Rattle.std.specs.Prelude.{◌≡◌};
ghost use Rattle.fw_script_command.specs.Keyword.{keyword_in};

/// The first word of a line.
#[derive(Clone, Copy)]
pub enum Keyword {
    Device,
    Cable,
    Reset,
    Connect,
    Broadcast,
    Listen,
    Break,
    Step,
    Settle,
    Wait,
    Cycles,
    Die,
    Lose,
    Start,
    Command,
    Read,
    Swap,
    Insert,
    Eject,
    Show,
    Withhold,
    Candidate,
    Contend,
    Dub,
    End,
}

/// The keyword that the word is.
#[inline(always)]
pub fn keyword_of(word: &[u8]) -> Option<Keyword>
    ensures { result ≡ keyword_in word.now }
{
    let keyword = match word {
        b"device" => Keyword::Device,
        b"cable" => Keyword::Cable,
        b"reset" => Keyword::Reset,
        b"connect" => Keyword::Connect,
        b"broadcast" => Keyword::Broadcast,
        b"listen" => Keyword::Listen,
        b"break" => Keyword::Break,
        b"step" => Keyword::Step,
        b"settle" => Keyword::Settle,
        b"wait" => Keyword::Wait,
        b"cycles" => Keyword::Cycles,
        b"die" => Keyword::Die,
        b"lose" => Keyword::Lose,
        b"start" => Keyword::Start,
        b"command" => Keyword::Command,
        b"read" => Keyword::Read,
        b"swap" => Keyword::Swap,
        b"insert" => Keyword::Insert,
        b"eject" => Keyword::Eject,
        b"show" => Keyword::Show,
        b"withhold" => Keyword::Withhold,
        b"candidate" => Keyword::Candidate,
        b"contend" => Keyword::Contend,
        b"dub" => Keyword::Dub,
        b"end" => Keyword::End,
        _ => return None,
    };
    Some(keyword)
}
