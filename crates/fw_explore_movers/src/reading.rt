//! The words after `explore`, one after the other.

ghost use Rattle.std.specs.Prelude.{◌≡◌, ◌<◌, ◌≤◌, ◌↔◌, ℕ, List, [], None, Some, IfOk, IsFalse, IsTrue, MatchResult, codes, length, true};
ghost use Rattle.std.specs.List.{Any};
ghost use Rattle.fw_script_command.specs.Form.{HasForm};
ghost use Rattle.fw_explore_movers.specs.Words.{HasMover, IsFull, IsLine, Refused, StandsForLine, Took, is_number, line_of_half_steps, may_stand, nothing_read};

use crate::fault::WordWhy;
use crate::forms::{half_step_line, is_number, may_follow, may_move, number_in};
use crate::mover::{Line, MOST_MOVERS, Mover, MoverKind};
use fw_script_command::{Command, command_of};
use std::alloc::{AllocError, Global};
use std::marker::Model;

/// The half steps of an interleaving if no word says so.
const MOST: u32 = 200;
/// The most bytes of a line.
const LINE_LIMIT: usize = 256;
/// The most lines that come after interleavings.
const MOST_AFTER: usize = 64;

/// The words that were read so far.
#[derive(Drop)]
pub(crate) struct Reading {
    pub(crate) alloc: Global,
    pub(crate) most: u32,
    pub(crate) movers: Vec<Mover>,
    pub(crate) following: Vec<Line>,
    pub(crate) follows: bool,
}

impl Model for Reading {
    ghost use Rattle.fw_explore_movers.specs.Words.{Read};

    ghost Value = { Read };

    ghost view = { λ r. record { most = r.most; movers = r.movers.items; following = r.following.items; follows = r.follows } };
}

// Whether a mover has this line.
fn has_mover(movers: &[Mover], line: &[u8]) -> bool
    ensures { IsTrue result ↔ Any (λ m. m.line.items ≡ line.now) movers.now }
{
    for mover in movers {
        if mover.has_line(line) {
            return true;
        }
    }
    false
}

fn copied(alloc: Global, word: &[u8]) -> Result<Vec<u8>, AllocError>
    ensures { IfOk result (λ v. v.items ≡ word.now) }
{
    let mut copy = Vec::new(alloc);
    copy.extend_from_slice(word)?;
    Ok(copy)
}

impl Reading {
    /// No word was read.
    pub(crate) fn new(alloc: Global) -> Reading
        ensures { result ≡ nothing_read }
    {
        Reading {
            alloc,
            most: MOST,
            movers: Vec::new(alloc),
            following: Vec::new(alloc),
            follows: false,
        }
    }

    // Whether there is no room for one more.
    fn is_full(&self) -> bool
        ensures { IsTrue result ↔ IsFull self.now }
    {
        if self.follows {
            return self.following.len() >= MOST_AFTER;
        }
        self.movers.len() >= MOST_MOVERS
    }

    // Whether a line may stand where the words are.
    fn may_stand(&self, command: &Command) -> bool
        ensures { result ≡ may_stand self.now.follows command.now }
    {
        if self.follows {
            may_follow(command)
        } else {
            may_move(command)
        }
    }

    // The command of a word that stands for a line.
    fn line_in(&self, word: &[u8]) -> Result<Command, WordWhy>
        ensures { MatchResult result (λ c. (length word.now ≤ 256) × IsLine c word.now × IsTrue (may_stand self.now.follows c) × (IsFull self.now → ⊥))
            (λ why. (n : ℕ) → IsFalse (is_number n word.now) → StandsForLine self.now word.now → Refused n word.now self.now why) }
    {
        if word.len() > LINE_LIMIT {
            return Err(WordWhy::LineTooLong);
        }
        let mut command = Command::End;
        if command_of(word, &mut command).is_none() {
            return Err(WordWhy::BadLine);
        }
        if matches!(command, Command::End) {
            return Err(WordWhy::BadLine);
        }
        if !self.may_stand(&command) {
            return Err(WordWhy::NotHere);
        }
        if self.is_full() {
            return Err(WordWhy::TooMany);
        }
        Ok(command)
    }

    // The command of a line of half steps, which a mover is to have.
    fn half_step_in(&self, line: &[u8]) -> Result<Command, WordWhy>
        requires { IsFalse self.now.follows }
        ensures { MatchResult result (λ c. HasForm c line.now × (length self.now.movers < 32) × (HasMover self.now line.now → ⊥))
            (λ why. (n : ℕ) (word : List ℕ) → IsFalse (is_number n word) → (word ≡ codes "then" → ⊥) → line_of_half_steps word ≡ Some line.now → Refused n word self.now why) }
    {
        let mut command = Command::End;
        if command_of(line, &mut command).is_none() {
            return Err(WordWhy::BadLine);
        }
        if self.movers.len() >= MOST_MOVERS {
            return Err(WordWhy::TooMany);
        }
        if has_mover(self.movers.as_slice(), line) {
            return Err(WordWhy::Twice);
        }
        Ok(command)
    }

    // A mover of half steps, which has this line.
    fn take_half_steps(
        &mut self,
        number: usize,
        line: Vec<u8>,
    ) -> Result<Option<WordWhy>, AllocError>
        requires { IsFalse self.old.follows }
        ensures { IfOk result (λ refused. (word : List ℕ) → IsFalse (is_number number word) → (word ≡ codes "then" → ⊥) → line_of_half_steps word ≡ Some line.items
            → Took number word self.old self.new refused) }
    {
        let command = match self.half_step_in(line.as_slice()) {
            Ok(command) => command,
            Err(why) => return Ok(Some(why)),
        };
        self.movers.push(Mover {
            line,
            command,
            kind: MoverKind::HalfSteps,
            word: number,
        })?;
        Ok(None)
    }

    // A mover that is a line itself.
    fn take_once(&mut self, number: usize, word: &[u8]) -> Result<Option<WordWhy>, AllocError>
        requires number { IsFalse (is_number number word.now) }
        requires follows { IsFalse self.old.follows }
        requires word { line_of_half_steps word.now ≡ None }
        ensures { IfOk result (Took number word.now self.old self.new) }
    {
        let command = match self.line_in(word) {
            Ok(command) => command,
            Err(why) => return Ok(Some(why)),
        };
        let line = copied(self.alloc, word)?;
        self.movers.push(Mover {
            line,
            command,
            kind: MoverKind::Once,
            word: number,
        })?;
        Ok(None)
    }

    // A word that is a mover.
    fn take_mover(&mut self, number: usize, word: &[u8]) -> Result<Option<WordWhy>, AllocError>
        requires number { IsFalse (is_number number word.now) }
        requires follows { IsFalse self.old.follows }
        requires word { word.now ≡ codes "then" → ⊥ }
        ensures { IfOk result (Took number word.now self.old self.new) }
    {
        match half_step_line(self.alloc, word)? {
            Some(line) => self.take_half_steps(number, line),
            None => self.take_once(number, word),
        }
    }

    // A word after `then`.
    fn take_line(&mut self, number: usize, word: &[u8]) -> Result<Option<WordWhy>, AllocError>
        requires number { IsFalse (is_number number word.now) }
        requires follows { IsTrue self.old.follows }
        ensures { IfOk result (Took number word.now self.old self.new) }
    {
        let command = match self.line_in(word) {
            Ok(command) => command,
            Err(why) => return Ok(Some(why)),
        };
        let text = copied(self.alloc, word)?;
        self.following.push(Line {
            text,
            command,
            word: number,
        })?;
        Ok(None)
    }

    /// Reads the word with this number, and answers why it is refused, if it is. An error says that memory ran out.
    pub(crate) fn take(&mut self, number: usize, word: &[u8]) -> Result<Option<WordWhy>, AllocError>
        ensures { IfOk result (Took number word.now self.old self.new) }
    {
        if is_number(number, word) {
            return Ok(match number_in(word) {
                Some(most) => {
                    self.most = most;
                    None
                }
                None => Some(WordWhy::BadNumber),
            });
        }
        if self.follows {
            return self.take_line(number, word);
        }
        if word == b"then".as_slice() {
            self.follows = true;
            return Ok(None);
        }
        self.take_mover(number, word)
    }
}
