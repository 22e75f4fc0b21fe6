//! The word `gen`. The scripts were made by a second implementation of the making, run by the word `run`, and the entries of the
//! logs counted by a second reader of logs.

use crate::calls::{NONE, call};
use std::test::Fail;

// What jobs came to in the run of another seed.
const SUMMARY_OF_2: &str = "\nconnected 9\nrestored 9\nrefused 21\n";

#[test]
fn the_summary_of_another_seed(rt: HostRuntime) -> Result<(), Fail> {
    let ended = call(rt.alloc(), &["gen", "2"], b"", NONE)?;
    assert!(rt; ended.status == 0);
    let is_told = str::from_utf8(ended.output.as_slice()).is_ok_and(|it| it.contains(SUMMARY_OF_2));
    assert!(rt; is_told);
    Ok(())
}
