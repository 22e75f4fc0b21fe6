//! A job: a connection that a controller makes, and what has become of it.

ghost use Rattle.std.specs.Prelude.{◌≡◌, ◌++◌, ℕ, List, OnOk};
ghost use Rattle.fw_trace_lines.specs.Jobs.{connection_of, plug_text, connection_text, new_job, is_now, is_older, is_older_at, made_after, over_after, goes_on, verb_of, doing_text};

use fw_log_entry::codes::outcome;
use fw_log_names::put_word;
use fw_script_command::{Command, Name};
use fw_trace_names::put_part;
use std::alloc::AllocError;

/// A connection as the line names it that asks for it: each plug by its device and its number.
#[derive(Clone, Copy)]
pub enum Connection {
    /// A point-to-point connection of an output plug to an input plug.
    PlugToPlug((Name, u8), (Name, u8)),
    /// A broadcast-out connection of an output plug.
    Broadcast((Name, u8)),
    /// A broadcast-in connection of an input plug.
    Listen((Name, u8)),
}

impl Connection {
    // The connection that a line asks for.
    pub(crate) fn of(command: &Command) -> Option<Connection>
        ensures { result ≡ connection_of command.now }
    {
        match command {
            Command::Connect(_, out, into, _, _) => Some(Connection::PlugToPlug(*out, *into)),
            Command::Broadcast(_, out, _) => Some(Connection::Broadcast(*out)),
            Command::Listen(_, into) => Some(Connection::Listen(*into)),
            _ => None,
        }
    }

    // Appends it in the words of its line.
    #[tactic(auto, unfolding(crate::specs::Jobs::connection_text))]
    pub(crate) fn put(&self, text: &mut Vec<u8>) -> Result<(), AllocError>
        ensures { OnOk result (text.new.items ≡ text.old.items ++ connection_text self.now) }
    {
        match self {
            Connection::PlugToPlug(out, into) => {
                put_plug(text, out)?;
                put_word(text, " to ")?;
                put_plug(text, into)
            }
            Connection::Broadcast(out) => {
                put_word(text, "broadcast ")?;
                put_plug(text, out)
            }
            Connection::Listen(into) => {
                put_word(text, "listen ")?;
                put_plug(text, into)
            }
        }
    }
}

// Appends a plug as a line names it.
fn put_plug(text: &mut Vec<u8>, plug: &(Name, u8)) -> Result<(), AllocError>
    ensures { OnOk result (text.new.items ≡ text.old.items ++ plug_text plug.now) }
{
    let (name, number) = plug;
    text.extend_from_slice(name.as_slice())?;
    put_part(text, ".", u64::from(*number))
}

/// A connection that a controller was asked to make, and what has become of it.
#[derive(Clone, Copy)]
pub struct TracedConnection {
    /// The number of the controller's device.
    pub device: u8,
    /// The slot that it took.
    pub slot: u8,
    /// What is connected.
    pub connection: Connection,
    /// Whether it was made.
    pub made: bool,
    /// Whether an outcome has ended it.
    pub over: bool,
    /// Whether another took its slot before its outcome was written.
    pub older: bool,
}

impl TracedConnection {
    // A job that has just taken a slot.
    pub(crate) fn new(device: u8, slot: u8, connection: Connection) -> TracedConnection
        ensures { result ≡ new_job device slot connection }
    {
        TracedConnection {
            device,
            slot,
            connection,
            made: false,
            over: false,
            older: false,
        }
    }

    // It has the slot now.
    pub(crate) fn is_now(&self, device: u8, slot: u8) -> bool
        ensures { result ≡ is_now device slot self.now }
    {
        self.device == device && self.slot == slot && !self.older
    }

    // It is the device's job whose slot another has taken.
    pub(crate) fn is_older(&self, device: u8) -> bool
        ensures { result ≡ is_older device self.now }
    {
        self.device == device && self.older
    }

    // It is that job, and of this slot.
    pub(crate) fn is_older_at(&self, device: u8, slot: u8) -> bool
        ensures { result ≡ is_older_at device slot self.now }
    {
        self.device == device && self.slot == slot && self.older
    }
}

// An outcome of this code leaves the connection standing.
fn goes_on(code: u8) -> bool
    ensures { result ≡ goes_on code }
{
    code == outcome::CONNECTED || code == outcome::RESTORED
}

// Whether a connection was made, after an outcome of this code.
pub(crate) fn made_after(code: u8, made: bool) -> bool
    ensures { result ≡ made_after code made }
{
    made || code == outcome::CONNECTED
}

// Whether a job is over, after an outcome of this code.
pub(crate) fn over_after(code: u8, over: bool) -> bool
    ensures { result ≡ over_after code over }
{
    over || !goes_on(code)
}

// What an outcome says that its job was doing.
fn verb_of(code: u8, made: bool) -> &'static str
    ensures { result.now ≡ verb_of code made }
{
    match code {
        outcome::CONNECTED => " makes ",
        outcome::BROKEN => " breaks ",
        outcome::RESTORED => " restores ",
        _ if !made => " makes ",
        outcome::RESET => " breaks ",
        _ => " restores ",
    }
}

// Appends what an outcome's job was doing, and of which connection.
#[tactic(auto, unfolding(crate::specs::Jobs::doing_text))]
pub(crate) fn put_doing(
    text: &mut Vec<u8>,
    code: u8,
    job: Option<TracedConnection>,
) -> Result<(), AllocError>
    ensures { OnOk result (text.new.items ≡ text.old.items ++ doing_text code job) }
{
    match job {
        Some(job) => {
            put_word(text, verb_of(code, job.made))?;
            job.connection.put(text)
        }
        None => {
            put_word(text, verb_of(code, false))?;
            put_word(text, "a connection")
        }
    }
}
