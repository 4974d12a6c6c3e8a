//! The waiting requests.
ghost use Rattle.std.specs.Prelude.{◌≡◌, ◌<◌, ◌++◌, ◌∷◌, [], ◌↔◌, ◌⊎◌, ◌+◌, Ok, true, false, length, is_some, if◌then◌else◌, IfOk, OnOk, OnErr};
ghost use Rattle.std.specs.Map.{remove_entry, values_of};
ghost use Rattle.std.specs.Ordering.{is_eq, nat_cmp};
ghost use Rattle.iss_base.specs.Lists.{Different};
ghost use Rattle.iss_request.specs.Log.{has_id, ids};
ghost use Rattle.iss_request.specs.declared.ids.ReqId.{ReqId};
ghost use Rattle.iss_buckets.specs.Internal.Filed.{AreFiled, AreQueued, filed_prop, IsNext, IsSetAt, bucket_of_id, is_unmarked_in, kept_at, least_of};
ghost use Rattle.iss_buckets.specs.Internal.Turns.{may_cast_at};
ghost use Rattle.iss_buckets.specs.Waiting.{waits, may_cast, cut, uncut, absent, AreNew};

use crate::queues::Queues;
use crate::shelf::Shelf;
use iss_layout::Layout;
use iss_request::{Batch, NoMemory, NodeId, ReqId, Request, Seq};
use std::alloc::Global;
use std::collections::HashSet;
use std::marker::Model;

/// The result of adding a request: it waits now, or one with its identity waited already.
#[derive(Clone, Copy, Debug, PartialEq, Eq)]
pub enum Added {
    Added,
    Known,
}

/// The waiting requests in order of arrival. No identity occurs twice.
#[derive(Drop)]
pub struct Pending {
    filed: Filed,
}

// The waiting requests by arrival number, and for each bucket the numbers of its requests.
#[derive(Drop)]
struct Filed {
    shelf: Shelf,
    // Built when a batch is first cut, one for each bucket of the layout then.
    queues: Queues,
    ghost filed: { AreFiled 0 shelf } by { filed_prop 0 shelf },
    ghost queued: { AreQueued shelf queues },
}

// Who casts, and what it must not cast: only requests of the owner's buckets, and none that is marked.
#[derive(Drop)]
struct Turn<'a> {
    layout: &'a Layout,
    owner: NodeId,
    marks: &'a HashSet<ReqId>,
}

impl Model for Pending {
    ghost use Rattle.std.specs.Prelude.{List};
    ghost use Rattle.std.specs.Map.{values_of};
    ghost use Rattle.iss_request.specs.declared.requests.Request.{Request};

    ghost Value = { List Request };

    ghost view = { λ p. values_of p.filed.shelf };
}

impl Pending {
    /// No request waits.
    pub fn new(alloc: Global) -> Pending
        ensures { result ≡ [] }
    {
        Pending {
            filed: Filed {
                shelf: Shelf::new(alloc),
                queues: Queues::none(alloc),
            },
        }
    }

    /// Whether a request with this identity waits.
    pub fn has(&self, id: ReqId) -> bool
        ensures { result ≡ waits id self.now }
    {
        self.filed.shelf.number_of(id).is_some()
    }

    /// Adds a request at the end, unless its identity waits already. The only error is out of memory, and then nothing
    /// changes.
    // rule: Buckets: A request waits at most once, in order of arrival
    pub fn add(&mut self, request: Request) -> Result<Added, NoMemory>
        ensures known { (result ≡ Ok Added.Known) ↔ (waits request.id self.old ≡ true) }
        ensures known_same { result ≡ Ok Added.Known → self.new ≡ self.old }
        ensures added { result ≡ Ok Added.Added → self.new ≡ self.old ++ request ∷ [] }
        ensures err { OnErr result (self.new ≡ self.old) }
    {
        if self.has(request.id) {
            return Ok(Added::Known);
        }
        self.filed.file(request)?;
        Ok(Added::Added)
    }

    /// Takes out the first `max` requests, in order of arrival, whose bucket `owner` owns and whose identity is not
    /// marked. The only error is out of memory.
    // rule: Buckets: A batch takes the first waiting requests of the leader's buckets that are not marked
    pub fn cut(
        &mut self,
        alloc: Global,
        layout: &Layout,
        owner: NodeId,
        marked: &[ReqId],
        max: usize,
    ) -> Result<Batch, NoMemory>
        ensures taken { IfOk result (λ batch. batch ≡ cut max (may_cast layout.now owner.0 marked.now) self.old) }
        ensures left { OnOk result (self.new ≡ uncut max (may_cast layout.now owner.0 marked.now) self.old) }
        ensures err { OnErr result (self.new ≡ self.old) }
    {
        let marks = marks_of(alloc, marked)?;
        let turn = Turn {
            layout,
            owner,
            marks: &marks,
        };
        let out = self.filed.cut(alloc, &turn, max)?;
        Ok(Batch::of(out))
    }

    /// Adds requests at the end. Their identities must be different, and none of them may wait.
    // rule: Buckets: Requests that return wait behind all others
    pub fn put_back(&mut self, batch: &Batch) -> Result<(), NoMemory>
        requires { AreNew self.old batch.now }
        ensures { OnOk result (self.new ≡ self.old ++ batch.now) }
    {
        self.filed.file_all(batch.as_slice())
    }

    /// Removes the requests whose identity is in the batch.
    // rule: Buckets: A request that enters the log waits no more
    pub fn drop_ordered(&mut self, batch: &Batch)
        ensures { self.new ≡ absent (ids batch.now) self.old }
    {
        self.filed.drop_all(batch.as_slice());
    }

    /// The identities of the waiting requests in order of arrival.
    pub fn waiting(&self, alloc: Global) -> Result<Seq<ReqId>, NoMemory>
        ensures waiting { IfOk result (λ is. is ≡ ids self.now) }
        ensures different { Different (ids self.now) }
    {
        Ok(Seq::of(self.filed.shelf.identities(alloc)?))
    }

    /// Copies of the waiting requests in order of arrival. The only error is out of memory.
    pub fn requests(&self, alloc: Global) -> Result<Seq<Request>, NoMemory>
        ensures { IfOk result (λ rs. rs ≡ self.now) }
    {
        Ok(Seq::of(self.filed.shelf.copies(alloc)?))
    }
}

impl Filed {
    // Adds a request that does not wait at the end.
    fn file(&mut self, request: Request) -> Result<(), NoMemory>
        requires { waits request.id (values_of self.old.shelf) ≡ false }
        ensures ok { OnOk result (values_of self.new.shelf ≡ values_of self.old.shelf ++ request ∷ []) }
        ensures err { OnErr result (self.new.shelf ≡ self.old.shelf) }
    {
        let id = request.id;
        let number = self.shelf.push(request)?;
        note(&mut self.queues, id, number);
        Ok(())
    }

    // Adds requests at the end. Their identities are different, and none of them waits.
    fn file_all(&mut self, batch: &[Request]) -> Result<(), NoMemory>
        requires { AreNew (values_of self.old.shelf) batch.now }
        ensures { OnOk result (values_of self.new.shelf ≡ values_of self.old.shelf ++ batch.now) }
    {
        for request in batch {
            self.file(request.copy()?)?;
        }
        Ok(())
    }

    // Removes the requests whose identity is in the batch.
    fn drop_all(&mut self, batch: &[Request])
        ensures { values_of self.new.shelf ≡ absent (ids batch.now) (values_of self.old.shelf) }
    {
        for request in batch {
            self.drop_one(request.id);
        }
    }

    // Removes the request with this identity.
    fn drop_one(&mut self, id: ReqId)
        ensures { values_of self.new.shelf ≡ absent (id ∷ []) (values_of self.old.shelf) }
    {
        if let Some(number) = self.shelf.number_of(id) {
            let _gone = self.take_out(number);
        }
    }

    // Takes out the request with this arrival number.
    fn take_out(&mut self, number: u64) -> Option<Request>
        ensures value { result ≡ kept_at self.old.shelf number }
        ensures left { self.new.shelf ≡ remove_entry (λ j. is_eq (nat_cmp number j)) self.old.shelf }
        ensures fewer { length self.new.shelf + (if is_some result then 1 else 0) ≡ length self.old.shelf }
        ensures count { length self.new.queues ≡ length self.old.queues }
    {
        let Some(request) = self.shelf.remove(number) else {
            return None;
        };
        self.queues.remove(request.id, number);
        Some(request)
    }

    // Takes out the first `max` requests that may be cast in this turn. The only error is out of memory.
    fn cut(&mut self, alloc: Global, turn: &Turn, max: usize) -> Result<Vec<Request>, NoMemory>
        ensures taken { IfOk result (λ out. out.items ≡ cut max (may_cast_at turn.now) (values_of self.old.shelf)) }
        ensures left { OnOk result (values_of self.new.shelf ≡
            uncut max (may_cast_at turn.now) (values_of self.old.shelf)) }
        ensures err { OnErr result (self.new.shelf ≡ self.old.shelf) }
    {
        let mut out = Vec::with_capacity(alloc, max)?;
        self.prepare(alloc, turn.layout.buckets() as usize)?;
        let mut from = 0;
        'scan: while out.len() < max {
            let Some(number) = self.next_castable(turn, from) else {
                return Ok(out);
            };
            if let Some(request) = self.take_out(number) {
                if out.push(request).is_err() {
                    unreachable!();
                }
            }
            from = number;
        }
        Ok(out)
    }

    // Builds queues for this number of buckets, if they are not there.
    fn prepare(&mut self, alloc: Global, buckets: usize) -> Result<(), NoMemory>
        ensures count { OnOk result (length self.new.queues ≡ buckets) }
        ensures kept { self.new.shelf ≡ self.old.shelf }
    {
        if self.queues.count() == buckets {
            return Ok(());
        }
        self.queues = self.shelf.queued(alloc, buckets)?;
        Ok(())
    }

    // The next request, from a number on, that the owner may propose.
    fn next_castable(&self, turn: &Turn, from: u64) -> Option<u64>
        requires { length self.now.queues ≡ turn.now.layout.now.buckets }
        ensures { IsNext (may_cast_at turn.now) self.now.shelf from result }
    {
        let mut first = None;
        for bucket in 0..turn.layout.buckets() {
            if turn.layout.owner_of(bucket) == turn.owner {
                first = least(first, self.next_unmarked(turn.marks, bucket as usize, from));
            }
        }
        first
    }

    // The next unmarked request of a bucket, from a number on.
    fn next_unmarked(&self, marks: &HashSet<ReqId>, bucket: usize, from: u64) -> Option<u64>
        requires { bucket < length self.now.queues }
        ensures { IsNext (is_unmarked_in (length self.now.queues) bucket marks.now.keys) self.now.shelf from result }
    {
        let mut at = from;
        'run: while let Some(number) = self.queues.next_from(bucket, at) {
            let Some(request) = self.shelf.get(number) else {
                unreachable!();
            };
            if !marks.contains(&request.id) {
                return Some(number);
            }
            at = number + 1;
        }
        None
    }
}

// Adds a number to its bucket's queue. If the queue runs out of memory, all queues are discarded; the next cut builds
// them again.
fn note(queues: &mut Queues, id: ReqId, number: u64)
    ensures { (queues.new ≡ []) ⊎ IsSetAt queues.old queues.new (bucket_of_id (length queues.old) id) number true }
{
    if queues.add(id, number).is_err() {
        queues.clear();
    }
}

fn marks_of(alloc: Global, marked: &[ReqId]) -> Result<HashSet<ReqId>, NoMemory>
    ensures { IfOk result (λ marks. (id : ReqId) → has_id id marks.keys ≡ has_id id marked.now) }
{
    let mut marks = HashSet::new(alloc);
    for id in marked {
        marks.insert(*id)?;
    }
    Ok(marks)
}

fn least(a: Option<u64>, b: Option<u64>) -> Option<u64>
    ensures { result ≡ least_of a b }
{
    match (a, b) {
        (Some(x), Some(y)) => Some(if x <= y { x } else { y }),
        (Some(x), None) => Some(x),
        (None, b) => b,
    }
}
