//! What is done with the outstanding requests: mostly the oldest is answered, and none is of a new one's requester.

ghost use Rattle.std.specs.Prelude.{◌≡◌, ◌<◌, ◌≤◌, ◌%◌, ◌++◌, ◌∷◌, true, false, [], List, Some, IfSome, drop, length};
ghost use Rattle.std.specs.List.{position};
ghost use Rattle.fw_watch_requests.specs.declared.asked.Asked.{Asked as AnAsked};
ghost use Rattle.fw_watch_requests.specs.Standing.{answers, latest, without_answered, without_same, without_source, answered};
ghost use Rattle.fw_watch_requests.specs.Kept.{AreApart, AreOthers};

use crate::asked::Asked;
use fw_async::Head;
use fw_request_queue::Queue;

/// How many requests are outstanding at most.
const MOST: usize = 256;

/// How many last numbers of nodes are told apart when a request of a new one's is looked for.
pub(crate) const ASKERS: usize = 64;

/// The last six bits of the node_ID of who asks.
#[inline(always)]
pub(crate) fn asker_of(head: &Head) -> usize
    ensures { result ≡ head.now.source % 64 }
{
    usize::from(head.source) % ASKERS
}

// The place of the request that a response answers.
fn place_of(rows: &[Asked], read: bool, head: &Head) -> Option<usize>
    ensures value { result ≡ position (answers read head.now) rows.now }
    ensures there { IfSome result (λ at. at < length rows.now) }
{
    rows.iter().position(|q| q.is_answered(read, head))
}

// The request that a response answers.
#[tactic(auto, unfolding(crate::specs::Standing::answered))]
fn asked_at(rows: &[Asked], read: bool, head: &Head) -> Option<Asked>
    ensures { result ≡ answered read head.now rows.now }
{
    match place_of(rows, read, head) {
        Some(at) => Some(rows[at]),
        None => None,
    }
}

// The first request, if a response answers it.
#[inline(always)]
fn answered_first(rows: &[Asked], read: bool, head: &Head) -> Option<Asked>
    ensures { IfSome result (λ q. (answers read head.now q ≡ true) × ((rest : List AnAsked) × (rows.now ≡ q ∷ rest))) }
{
    match rows.first() {
        Some(first) if first.is_answered(read, head) => Some(*first),
        _ => None,
    }
}

/// The first request, if a response answers it: it alone is the one that the response ends.
#[inline(always)]
pub(crate) fn first_answered(rows: &[Asked], read: bool, head: &Head) -> Option<Asked>
    requires { AreApart rows.now }
    ensures first { IfSome result (λ q. answered read head.now rows.now ≡ Some q) }
    ensures others { IfSome result (λ q. drop 1 rows.now ≡ without_answered read head.now rows.now) }
{
    answered_first(rows, read, head)
}

// Keeps the requests that a response does not answer.
fn retain_unanswered(queue: &mut Queue<Asked>, read: bool, head: &Head)
    ensures { queue.new ≡ without_answered read head.now queue.old }
{
    queue.retain(|q| !q.is_answered(read, head));
}

/// Takes the request away that a response answers, wherever it stands, and answers it.
pub(crate) fn take_answered(queue: &mut Queue<Asked>, read: bool, head: &Head) -> Option<Asked>
    ensures value { result ≡ answered read head.now queue.old }
    ensures known { queue.new ≡ without_answered read head.now queue.old }
{
    let asked = asked_at(queue.as_slice(), read, head);
    retain_unanswered(queue, read, head);
    asked
}

// Takes those away that are of the requester, node and label of a request, wherever they stand.
#[inline(never)]
fn take_all_same(queue: &mut Queue<Asked>, source: u16, destination: u16, label: u8)
    ensures { queue.new ≡ without_same (record { destination = destination; tl = label; rt = 0; pri = 0; source = source }) queue.old }
{
    let head = Head {
        destination,
        tl: label,
        rt: 0,
        pri: 0,
        source,
    };
    queue.retain(|q| !q.is_of(&head));
}

/// Takes those away that are of the same requester, node and label as a request, if one may be from its source. What is not inlined is
/// given no head, so that none need be put together in memory.
#[inline(always)]
pub(crate) fn take_same(queue: &mut Queue<Asked>, head: &Head, may_be: bool)
    requires { may_be ≡ false → AreOthers head.now queue.old }
    ensures { queue.new ≡ without_same head.now queue.old }
{
    if may_be {
        take_all_same(queue, head.source, head.destination, head.tl);
    }
}

/// Takes those of a node away.
pub(crate) fn take_source(queue: &mut Queue<Asked>, source: u16)
    ensures { queue.new ≡ without_source source queue.old }
{
    queue.retain(|q| q.source != source);
}

/// The oldest request makes room for a new one, if as many stand as can.
#[inline(always)]
pub(crate) fn make_room(queue: &mut Queue<Asked>)
    requires { length queue.old ≤ 256 }
    ensures room { length queue.new < 256 }
    ensures latest { (new : AnAsked) → queue.new ++ new ∷ [] ≡ latest (queue.old ++ new ∷ []) }
{
    if queue.as_slice().len() == MOST {
        queue.take_first();
    }
}
