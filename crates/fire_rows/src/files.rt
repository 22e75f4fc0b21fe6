//! Files that rows name.

use std::{fs, io};

/// The bytes of these files, one after another; spaces separate their names.
pub(crate) fn read_joined(rt: &HostRuntime, names: &str) -> io::Result<Vec<u8>> {
    let mut bytes = Vec::new(rt.alloc());
    for name in names.split_whitespace() {
        bytes.extend_from_slice(&fs::read(rt, name)?)?;
    }
    Ok(bytes)
}
