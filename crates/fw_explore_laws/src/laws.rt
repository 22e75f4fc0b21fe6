//! Laws of the rows of an exploration, each as the contract of an empty function.

ghost use Rattle.fw_explore_laws.specs.Rests.{RowsAreRests};
ghost use Rattle.fw_explore_laws.specs.Runs.{RestsAreRun};
ghost use Rattle.fw_explore_laws.specs.Told.{ParagraphsAreRests};

use fw_tape::Desk;

/// If the desk is a function, each row of an exploration is the rest of the script that it follows: after the script's lines but `end`, the
/// lines of its paragraph are a script that is carried out without a refusal, and what they write is what the row's ending tells. It is so
/// if all have no more than 1,048,576 bytes together; and of the paragraph with its remarks, if none of these has more than 256.
pub fn rows_are_rests<F: Fn(u16, u32, u16) -> [u8; 480], H: Fn(u32, u8) -> u8>(desk: &Desk<F, H>)
    ensures { RowsAreRests (record { blocks = F.post desk.now.blocks; vendor = H.post desk.now.vendor }) }
{
    let _ = desk;
}

/// So a call of `run` over a row's script refuses no line of it: if it ends with 0 it has written the script's log, what the row's first
/// interleaving and the lines after it wrote, and the end.
pub fn rests_are_run<F: Fn(u16, u32, u16) -> [u8; 480], H: Fn(u32, u8) -> u8>(desk: &Desk<F, H>)
    ensures { RestsAreRun (record { blocks = F.post desk.now.blocks; vendor = H.post desk.now.vendor }) }
{
    let _ = desk;
}

/// And each row of a text that `explore` writes has its paragraph there, which is the rest of the script that was read.
pub fn paragraphs_are_rests<F: Fn(u16, u32, u16) -> [u8; 480], H: Fn(u32, u8) -> u8>(
    desk: &Desk<F, H>,
)
    ensures { ParagraphsAreRests (record { blocks = F.post desk.now.blocks; vendor = H.post desk.now.vendor }) }
{
    let _ = desk;
}
