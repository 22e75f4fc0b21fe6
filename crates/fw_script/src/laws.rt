//! Laws of scripts, as the contracts of empty functions.

ghost use Rattle.fw_script.specs.Laws.{PiecesPartTheBytes, LineIsOneCommand, LinesGiveOneAnswer, ScriptSaysOneThing, LimitDecides, BeginningIsFirst, FirstIsBeginning};
ghost use Rattle.fw_script.specs.Laws.{ReadingBegins, CommandIsNext, GivenComesFirst, EndIsLast, FaultIsTheScripts, WholeLinesWereGiven, TakenIsHeld};
ghost use Rattle.fw_script.specs.Laws.{TakingGoesOn, NothingIsPassedOver, CommandIsGiven, RefusalIsGiven, HeldIsGiven};

/// A script says one thing: its commands in order, and its first refused line, if any. Its length decides whether
/// it can be too long.
pub fn scripts_say_one_thing()
    ensures pieces { PiecesPartTheBytes }
    ensures line { LineIsOneCommand }
    ensures answer { LinesGiveOneAnswer }
    ensures script { ScriptSaysOneThing }
    ensures limit { LimitDecides }
    ensures first { BeginningIsFirst }
    ensures beginning { FirstIsBeginning }
{}

/// The calls of a reader, one after the other, give what the script says.
pub fn calls_give_the_script()
    ensures begins { ReadingBegins }
    ensures command { CommandIsNext }
    ensures first { GivenComesFirst }
    ensures end { EndIsLast }
    ensures fault { FaultIsTheScripts }
    ensures whole_lines { WholeLinesWereGiven }
    ensures taken { TakenIsHeld }
{}

/// Lines that are looked at and passed one by one are those that the calls of a reader read.
pub fn lines_are_read_one_by_one()
    ensures taking { TakingGoesOn }
    ensures nothing { NothingIsPassedOver }
    ensures command { CommandIsGiven }
    ensures refusal { RefusalIsGiven }
    ensures held { HeldIsGiven }
{}
