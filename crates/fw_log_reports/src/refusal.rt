use fw_audit::AuditFault;
use fw_map::MapFault;

/// The first entry of a log that has a fault, and the first fault that it has.
#[derive(Clone, Copy)]
pub struct Unsound {
    /// The number of the entry, from 0.
    pub entry: u64,
    /// What is wrong with it.
    pub fault: AuditFault,
    /// How many locks up to it no audit judges: those at watched registers with another label than that of procedures.
    pub unjudged: u64,
}

/// Why a log has no map.
#[derive(Clone, Copy)]
pub enum NoMap {
    /// It has no bus reset.
    NoReset,
    /// No tree has the self-ID packets of its last bus reset: the first fault.
    NoTree(MapFault),
}

/// Why a word refuses a log.
#[derive(Clone, Copy)]
pub enum LogRefusal {
    /// An audit finds a fault at an entry.
    Audit(Unsound),
    /// The log has no map.
    Map(NoMap),
}
