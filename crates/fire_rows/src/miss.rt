//! Why a row does not hold.

use std::alloc::{AllocError, AllocFailed, Global};
use std::io;

/// Why a row does not hold.
#[derive(Drop)]
pub(crate) enum Miss {
    /// The program did otherwise: lines that say what was expected, and what was found.
    Otherwise(String),
    /// It is no row of its table: what it lacks.
    NoRow(&'static str),
    /// A file that it names could not be read, or memory ran out.
    Failed(io::Error),
}

impl From<io::Error> for Miss {
    fn from(error: io::Error) -> Miss {
        Miss::Failed(error)
    }
}

impl From<AllocError> for Miss {
    fn from(error: AllocError) -> Miss {
        Miss::Failed(io::Error::from(error))
    }
}

impl<T: Drop> From<AllocFailed<T>> for Miss {
    fn from(error: AllocFailed<T>) -> Miss {
        Miss::from(AllocError::from(error))
    }
}

impl Miss {
    /// What was expected, and what was found.
    pub(crate) fn otherwise(alloc: Global, expected: &str, found: &str) -> Miss {
        match format!(in alloc; "  expected: {expected}\n  found: {found}\n") {
            Ok(lines) => Miss::Otherwise(lines),
            Err(error) => Miss::from(error),
        }
    }

    /// The same, with a line more that says where it was.
    fn at(self, alloc: Global, place: &str, number: usize) -> Miss {
        let Miss::Otherwise(lines) = self else {
            return self;
        };
        match format!(in alloc; "  {place} {number}\n{lines}") {
            Ok(lines) => Miss::Otherwise(lines),
            Err(error) => Miss::from(error),
        }
    }
}

/// A result, of which a miss says where it was.
pub(crate) fn at(
    alloc: Global,
    place: &str,
    number: usize,
    found: Result<(), Miss>,
) -> Result<(), Miss> {
    match found {
        Ok(()) => Ok(()),
        Err(miss) => Err(miss.at(alloc, place, number)),
    }
}
