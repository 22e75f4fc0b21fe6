/// A refused word after `explore`, by its number from 1.
#[derive(Clone, Copy)]
pub struct WordFault {
    pub word: usize,
    pub why: WordWhy,
}

/// Why a word after `explore` is refused.
#[derive(Clone, Copy)]
pub enum WordWhy {
    /// Word 1 begins with a digit, and is no number from 1 to 10,000.
    BadNumber,
    /// The word has more than 256 bytes, and stands for a line.
    LineTooLong,
    /// The word is no mover, and has no form of a line.
    BadLine,
    /// The line may not stand there.
    NotHere,
    /// It is the 33rd mover, or the 65th line after `then`.
    TooMany,
    /// The controller or the candidate is a mover already.
    Twice,
    /// The word names a device that the script does not declare.
    UnknownName,
}

/// Why words are no exploration.
#[derive(Clone, Copy)]
pub enum WordsFault {
    /// No word is refused, and none is a mover.
    Usage,
    /// This word is the first that is refused.
    Refused(WordFault),
    /// Memory was refused.
    NoMemory,
}
