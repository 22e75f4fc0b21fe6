use fw_explore_movers::WordFault;
use fw_outside::Stop;
use fw_script_words::Refused;

/// How an exploration ends.
#[derive(Clone, Copy)]
pub enum ExploreEnding {
    /// All was written.
    Done,
    /// The first line of the script that is refused.
    Refused(Refused),
    /// The first word that names a device which the script does not declare.
    Unknown(WordFault),
    /// There are more places than fit.
    TooLarge,
    /// A read, a write or memory failed, or the script is too long.
    Stopped(Stop),
}
