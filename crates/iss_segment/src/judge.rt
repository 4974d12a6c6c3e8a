//! The validity check of a batch: whether a segment accepts it.
ghost use Rattle.std.specs.Prelude.{◌≡◌, ◌<◌, ◌≤◌, ◌==◌, ◌||◌, ℕ, List, not, length, drop};
ghost use Rattle.iss_segment.specs.Internal.Marks.{twice};
ghost use Rattle.iss_layout.specs.Layout.{bucket_of, bucket_owner};
ghost use Rattle.iss_rules.specs.Concrete.{is_signed_by, keys_of, number_of, rules_of};
ghost use Rattle.iss_rules.specs.Judge.{any, any_marked, judge};
ghost use Rattle.iss_request.specs.Log.{has_id, ids, log_ids, same_id};
ghost use Rattle.iss_request.specs.declared.requests.Request.{Request};
ghost use Rattle.iss_request.specs.declared.requests.Value.{Value};
ghost use Rattle.iss_segment.specs.Ground.{RestsOn, noted_before};
ghost use Rattle.iss_window.specs.Kept.{RefinesNoted};
ghost use Rattle.iss_window.specs.Window.{is_inside, place_of};

use crate::signatures::is_signed;
use iss_keys::Directory;
use iss_layout::Layout;
use iss_request::{NodeId, ReqId, Request};
use iss_rules::Refusal;
use iss_sb::Params;
use iss_window::{Ids, Place, Windows};

/// The first reason to refuse a batch in the segment of these parameters. `None` if the batch is accepted. `marked` are
/// the identities that the segment accepted earlier. (ISS: valid requests, from the leader's buckets, neither accepted
/// in this epoch nor delivered before.)
// rule: Acceptance: A batch is refused for its first fault: size, bucket, signature, window, ordered, marked
// rule: Acceptance: An accepted request is signed, inside its client's window, and of no earlier epoch
pub fn refusal(
    params: &Params,
    layout: &Layout,
    windows: &Windows,
    marked: &Ids,
    batch: &[Request],
) -> Option<Refusal>
    requires { params.now.directory ≡ keys_of params.now.setup }
    ensures { (before : List Value) (e : ℕ) → RestsOn params.now.setup before e layout.now windows.now →
        result ≡ judge (rules_of params.now.setup) before e params.now.leader.0 marked.now batch.now }
{
    if batch.len() as u64 > params.setup.batch as u64 {
        Some(Refusal::TooLarge)
    } else if is_any_foreign(layout, params.leader, batch) {
        Some(Refusal::ForeignBucket)
    } else if is_any_unsigned(params.directory.directory(), batch) {
        Some(Refusal::BadSignature)
    } else if is_any_outside(windows, batch) {
        Some(Refusal::OutOfWindow)
    } else if is_any_ordered(windows, batch) {
        Some(Refusal::Ordered)
    } else if is_any_marked(marked, batch) {
        Some(Refusal::Marked)
    } else {
        None
    }
}

// Whether some request's bucket belongs to another leader.
// rule: Acceptance: A batch is refused where its leader does not own the bucket of each request
fn is_any_foreign(layout: &Layout, leader: NodeId, batch: &[Request]) -> bool
    ensures { result ≡ any (λ (q : Request). not
        (number_of (bucket_owner layout.now (bucket_of layout.now q.id)) == leader.0)) batch.now }
{
    batch
        .iter()
        .any(|request| !is_owner(layout, leader, request.id))
}

// Whether the node owns the request's bucket in this epoch.
fn is_owner(layout: &Layout, node: NodeId, id: ReqId) -> bool
    ensures { result ≡ (number_of (bucket_owner layout.now (bucket_of layout.now id)) == node.0) }
{
    owner(layout, id).0 == node.0
}

// The node that owns the request's bucket in this epoch.
fn owner(layout: &Layout, id: ReqId) -> NodeId
    ensures { number_of (bucket_owner layout.now (bucket_of layout.now id)) ≡ result.0 }
{
    layout.owner_of(layout.bucket_of(id))
}

// Whether some request is not validly signed by its client.
// rule: Acceptance: A batch with a request that its client did not sign is refused
fn is_any_unsigned(directory: &Directory, batch: &[Request]) -> bool
    ensures { result ≡ any (λ (q : Request). not (is_signed_by directory.now q)) batch.now }
{
    batch.iter().any(|request| !is_signed(directory, request))
}

// Whether some request's number is outside its client's window.
fn is_any_outside(windows: &Windows, batch: &[Request]) -> bool
    ensures { (before : List Value) → RefinesNoted windows.now (noted_before before) →
        result ≡ any (λ (q : Request). not (is_inside (place_of windows.now.width (log_ids before) q.id))) batch.now }
{
    for request in batch {
        if windows.test(request.id) != Place::Inside {
            return true;
        }
    }
    false
}

// Whether some request is already in the log of earlier epochs.
fn is_any_ordered(windows: &Windows, batch: &[Request]) -> bool
    ensures { (before : List Value) → RefinesNoted windows.now (noted_before before) →
        result ≡ any (λ (q : Request). has_id q.id (log_ids before)) batch.now }
{
    for request in batch {
        if windows.ordered(request.id) {
            return true;
        }
    }
    false
}

// Whether some identity was accepted earlier, or occurs twice in the batch.
fn is_any_marked(marked: &Ids, batch: &[Request]) -> bool
    ensures { result ≡ any_marked marked.now (ids batch.now) }
{
    is_any_among(marked, batch) || is_any_twice(batch)
}

fn is_any_among(marked: &Ids, batch: &[Request]) -> bool
    ensures { result ≡ any (λ (q : Request). has_id q.id marked.now) batch.now }
{
    batch.iter().any(|request| marked.has(request.id))
}

fn is_any_twice(batch: &[Request]) -> bool
    ensures { result ≡ twice (ids batch.now) }
{
    for place in 0..batch.len() {
        if is_among(&batch[place], behind(batch, place + 1)) {
            return true;
        }
    }
    false
}

fn behind(batch: &[Request], place: usize) -> &[Request]
    requires { place ≤ length batch.now }
    ensures { result.now ≡ drop place batch.now }
{
    &batch[place..]
}

fn is_among(request: &Request, batch: &[Request]) -> bool
    ensures { result ≡ any (λ (q : Request). same_id request.now.id q.id) batch.now }
{
    batch.iter().any(|other| request.id == other.id)
}
