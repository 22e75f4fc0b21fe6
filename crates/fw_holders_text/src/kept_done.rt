//! The latest texts of what controllers did.

ghost use Rattle.std.specs.Prelude.{◌≡◌, ◌++◌, List, IsTrue, IfSome, OnOk, Some, None, length};
ghost use Rattle.fw_log_entry.specs.declared.nodes.NodeRow.{NodeRow as ANode};
ghost use Rattle.fw_holders_text.specs.Kept.{AreDone, IsDone, column_text};

use crate::bus_nodes::BusNodes;
use crate::deed::{Deed, put_done};
use crate::names::{Side, fill};
use crate::text_row::TextRow;
use fw_log_names::put_word;
use fw_terms::{ConnectionKind, PlugAt};
use std::alloc::AllocError;

/// How many columns what is told of an entry has.
pub const WHAT_WIDTH: usize = 40;

/// How many rows there are: for each controller one for each kind of deed.
pub(crate) const DONE_ROWS: usize = 512;

/// What the controller of a device did, whether a reclaim second ran or not.
#[derive(Clone, Copy)]
pub(crate) struct Done {
    pub reclaiming: bool,
    pub controller: u8,
    pub deed: Deed,
}

/// What was done, if its text is kept; and the text at the left end of a column, with a space after the column.
#[derive(Drop)]
pub(crate) struct KeptDone {
    pub done: Option<Done>,
    pub text: TextRow,
}

// It is the same register.
#[inline(always)]
fn is_side(side: Side, other: Side) -> bool
    ensures { IsTrue result → side ≡ other }
{
    match (side, other) {
        (Side::Output, Side::Output) => true,
        (Side::Input, Side::Input) => true,
        _ => false,
    }
}

// It is the same kind of connection.
#[inline(always)]
fn is_kind(kind: ConnectionKind, other: ConnectionKind) -> bool
    ensures { IsTrue result → kind ≡ other }
{
    match (kind, other) {
        (ConnectionKind::PointToPoint, ConnectionKind::PointToPoint) => true,
        (ConnectionKind::Broadcast, ConnectionKind::Broadcast) => true,
        _ => false,
    }
}

// It is a connection of the same plug.
#[inline(always)]
fn is_connection(one: (Side, PlugAt, ConnectionKind), other: (Side, PlugAt, ConnectionKind)) -> bool
    ensures { IsTrue result → one ≡ other }
{
    one.1.device == other.1.device
        && one.1.plug == other.1.plug
        && is_side(one.0, other.0)
        && is_kind(one.2, other.2)
}

// It is the same deed.
#[inline(always)]
fn is_deed(deed: Deed, other: Deed) -> bool
    ensures { IsTrue result → deed ≡ other }
{
    match (deed, other) {
        (Deed::TakesChannel(a), Deed::TakesChannel(b)) => a == b,
        (Deed::TakesUnits(a), Deed::TakesUnits(b)) => a == b,
        (Deed::GivesUnits(a), Deed::GivesUnits(b)) => a == b,
        (Deed::GivesChannel(a), Deed::GivesChannel(b)) => a == b,
        (Deed::Connects(s, p, k), Deed::Connects(t, q, l)) => is_connection((s, p, k), (t, q, l)),
        (Deed::Adds(s, p, k), Deed::Adds(t, q, l)) => is_connection((s, p, k), (t, q, l)),
        (Deed::Leaves(s, p, k), Deed::Leaves(t, q, l)) => is_connection((s, p, k), (t, q, l)),
        _ => false,
    }
}

// It is what was done.
#[inline(always)]
fn is_done(kept: &Option<Done>, done: Done) -> bool
    ensures { IsTrue result → kept.now ≡ Some done }
{
    match kept {
        Some(other) => {
            other.controller == done.controller
                && other.reclaiming == done.reclaiming
                && is_deed(other.deed, done.deed)
        }
        None => false,
    }
}

// The row that a deed belongs to: any would do.
#[inline(always)]
fn row_of(done: Done) -> usize {
    let kind = match done.deed {
        Deed::TakesChannel(_) => 0,
        Deed::TakesUnits(_) => 1,
        Deed::GivesUnits(_) => 2,
        Deed::GivesChannel(_) => 3,
        Deed::Connects(Side::Output, ..) | Deed::Adds(Side::Output, ..) => 4,
        Deed::Connects(Side::Input, ..) | Deed::Adds(Side::Input, ..) => 5,
        Deed::Leaves(Side::Output, ..) => 6,
        Deed::Leaves(Side::Input, ..) => 7,
    };
    usize::from(done.controller) * 8 + kind
}

// Appends what was done, at the left end of a column, and a space.
fn put_column(text: &mut Vec<u8>, nodes: &BusNodes, done: Done) -> Result<(), AllocError>
    ensures { OnOk result (text.new.items ≡ text.old.items ++ column_text nodes.now done) }
{
    let from = text.len();
    put_done(text, nodes, done.reclaiming, done.controller, done.deed)?;
    fill(text, from, WHAT_WIDTH)?;
    put_word(text, " ")
}

impl KeptDone {
    /// None so far.
    pub(crate) fn new() -> KeptDone
        ensures { result.done ≡ None }
    {
        KeptDone {
            done: None,
            text: TextRow::new(),
        }
    }

    // Appends something else, and keeps its text.
    #[inline(never)]
    fn put_new(
        &mut self,
        text: &mut Vec<u8>,
        nodes: &BusNodes,
        done: Done,
    ) -> Result<(), AllocError>
        ensures kept { IsDone nodes.now self.new }
        ensures text { OnOk result (text.new.items ≡ text.old.items ++ column_text nodes.now done) }
    {
        self.done = None;
        let begins = text.len();
        put_column(text, nodes, done)?;
        if self.text.keep(&text[begins..]) {
            self.done = Some(done);
        }
        Ok(())
    }

    // Appends what was done, of which the text is mostly at hand.
    #[inline(always)]
    fn put(&mut self, text: &mut Vec<u8>, nodes: &BusNodes, done: Done) -> Result<(), AllocError>
        requires kept { IsDone nodes.now self.old }
        ensures kept { IsDone nodes.now self.new }
        ensures text { OnOk result (text.new.items ≡ text.old.items ++ column_text nodes.now done) }
    {
        if is_done(&self.done, done) {
            self.text.put(text)
        } else {
            self.put_new(text, nodes, done)
        }
    }
}

/// Appends what was done, of which the text is mostly at hand in one of the rows: at the left end of a column, and a space.
#[inline(always)]
pub(crate) fn put_done_column(
    rows: &mut [KeptDone],
    text: &mut Vec<u8>,
    nodes: &BusNodes,
    done: Done,
) -> Result<(), AllocError>
    requires kept { AreDone nodes.now rows.old }
    ensures size { length rows.new ≡ length rows.old }
    ensures kept { AreDone nodes.now rows.new }
    ensures text { OnOk result (text.new.items ≡ text.old.items ++ column_text nodes.now done) }
{
    let row = row_of(done);
    if row >= rows.len() {
        return put_column(text, nodes, done);
    }
    rows[row].put(text, nodes, done)
}

/// The text of what was done, at the left end of a column, and a space, if it is at hand in one of the rows.
#[inline(always)]
pub(crate) fn done_row(rows: &[KeptDone], done: Done) -> Option<&TextRow>
    ensures { (nodes : List ANode) → AreDone nodes rows.now → IfSome result (λ row. row.now ≡ column_text nodes done) }
{
    let kept = rows.get(row_of(done))?;
    if is_done(&kept.done, done) {
        Some(&kept.text)
    } else {
        None
    }
}
