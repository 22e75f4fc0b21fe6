//! What is done to a log at a place, and bytes that are put into their places.

use crate::miss::Miss;
use std::alloc::{AllocError, Global};

/// What is done to a log at a place.
#[derive(Clone, Copy)]
pub(crate) enum Change {
    /// It ends there.
    Cut,
    /// The byte there is so much more, modulo 256.
    Add(u8),
}

impl Change {
    /// The changes of which each is made alone.
    pub(crate) fn all_of(words: &str) -> &'static [Change] {
        match words {
            "cut" => &[Change::Cut],
            "more" => &[Change::Add(1)],
            "less" => &[Change::Add(255)],
            "more less" => &[Change::Add(1), Change::Add(255)],
            _ => &[],
        }
    }

    /// Makes it, and answers whether the log has such a place.
    fn make(self, log: &mut Vec<u8>, at: usize) -> bool {
        let Some(byte) = log.get_mut(at) else {
            return false;
        };
        match self {
            Change::Cut => log.truncate(at),
            Change::Add(more) => *byte = byte.wrapping_add(more),
        }
        true
    }

    /// A log with this change at a place.
    pub(crate) fn of(self, alloc: Global, log: &[u8], at: usize) -> Result<Vec<u8>, Miss> {
        let mut log = log.to_vec(alloc)?;
        if !self.make(&mut log, at) {
            return Err(Miss::NoRow("a place within the log"));
        }
        Ok(log)
    }
}

/// A place and its byte, `PLACE=BYTE`, in hexadecimal.
fn byte_of(text: &str) -> Option<(usize, u8)> {
    let (at, byte) = text.split_once("=")?;
    Some((
        at.parse::<usize>().ok()?,
        u8::from_str_radix(byte, 16).ok()?,
    ))
}

/// Puts a byte into its place, or after the end, and answers whether there is such a place.
fn put(log: &mut Vec<u8>, text: &str) -> Result<bool, AllocError> {
    let Some((at, byte)) = byte_of(text) else {
        return Ok(false);
    };
    if at == log.len() {
        log.push(byte)?;
        return Ok(true);
    }
    match log.get_mut(at) {
        Some(here) => {
            *here = byte;
            Ok(true)
        }
        None => Ok(false),
    }
}

/// A log with bytes in their places, `PLACE=BYTE PLACE=BYTE`, or a whole one, `whole`.
pub(crate) fn log_with(alloc: Global, log: &[u8], bytes: &str) -> Result<Vec<u8>, Miss> {
    let mut log = log.to_vec(alloc)?;
    if bytes == "whole" {
        return Ok(log);
    }
    for byte in bytes.split_whitespace() {
        if !put(&mut log, byte)? {
            return Err(Miss::NoRow("bytes and their places"));
        }
    }
    Ok(log)
}
