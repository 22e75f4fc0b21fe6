//! A call of the program over memory.

use crate::due::Due;
use crate::ended::{Ended, Failing};
use crate::miss::Miss;
use crate::{Portions, Program};
use std::alloc::{AllocError, Global};

pub(crate) const NONE: Failing<'static> = Failing {
    writes: &[],
    notes: &[],
};

/// A call: its words, separated by spaces, with `_` for a space within a word, what it reads, how many bytes it has room to write, and which of its writes fail.
#[derive(Drop)]
pub(crate) struct Call<'a> {
    pub(crate) words: &'a str,
    pub(crate) source: Portions<'a>,
    pub(crate) room: usize,
    pub(crate) failing: Failing<'a>,
}

impl<'a> Call<'a> {
    /// A call that reads all bytes at once, and of which nothing fails.
    pub(crate) fn over(words: &'a str, input: &'a [u8], room: usize) -> Call<'a> {
        Call {
            words,
            source: Portions::whole(input),
            room,
            failing: NONE,
        }
    }

    /// A call that reads the bytes one at a time, and whose read after the last of them fails.
    pub(crate) fn failing_after(words: &'a str, input: &'a [u8], room: usize) -> Call<'a> {
        Call {
            words,
            source: Portions::failing(input),
            room,
            failing: NONE,
        }
    }

    /// Makes it, and answers how it ended, if that is as it is due.
    pub(crate) fn ends<P: Program>(
        self,
        program: &P,
        alloc: Global,
        due: &Due<'_>,
    ) -> Result<Ended, Miss> {
        let ended = self.make(program, alloc)?;
        ended.check(alloc, due)?;
        Ok(ended)
    }

    fn make<P: Program>(self, program: &P, alloc: Global) -> Result<Ended, AllocError> {
        let Call {
            words,
            mut source,
            room,
            failing,
        } = self;
        let words = words_of(alloc, words)?;
        let mut ended = Ended::new(alloc, room, failing)?;
        ended.status = program.call(
            alloc,
            &words,
            &mut source,
            &mut ended.output,
            &mut ended.notes,
        );
        Ok(ended)
    }
}

fn words_of(alloc: Global, words: &str) -> Result<Vec<String>, AllocError> {
    let mut list = Vec::new(alloc);
    for word in words.split_whitespace() {
        put_word(alloc, word, &mut list)?;
    }
    Ok(list)
}

fn put_word(alloc: Global, word: &str, list: &mut Vec<String>) -> Result<(), AllocError> {
    list.push(word.replace(alloc, "_", " ")?)?;
    Ok(())
}
