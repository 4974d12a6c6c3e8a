//! Requests by arrival number.
ghost use Rattle.std.specs.Prelude.{◌≡◌, ◌++◌, ◌∷◌, [], ◌<◌, ◌+◌, ◌^◌, None, length, is_some, if◌then◌else◌, IfOk, IfSome, OnErr};
ghost use Rattle.std.specs.Map.{remove_entry, values_of};
ghost use Rattle.std.specs.Option.{option_copied};
ghost use Rattle.std.specs.Ordering.{is_eq, nat_cmp};
ghost use Rattle.iss_request.specs.Log.{ids};
ghost use Rattle.iss_buckets.specs.Internal.Filed.{AreFiled, AreQueued, kept_at, number_of};

use crate::queues::Queues;
use iss_request::{NoMemory, ReqId, Request, sum};
use std::alloc::Global;
use std::collections::{BTreeMap, HashMap};
use std::marker::Model;

/// Requests in order of arrival, each with an arrival number. No identity occurs twice.
#[derive(Drop)]
pub(crate) struct Shelf {
    // the next arrival number
    next: u64,
    requests: BTreeMap<u64, Request>,
    numbers: HashMap<ReqId, u64>,
}

impl Model for Shelf {
    ghost use Rattle.std.specs.Prelude.{List, ℕ};
    ghost use Rattle.iss_request.specs.declared.requests.Request.{Request};
    ghost use Rattle.iss_buckets.specs.Internal.Shelves.{IsShelf};

    ghost Value = { List (ℕ × Request) };

    ghost view = { λ s. s.requests.entries };

    ghost invariant = { λ s. IsShelf s.next s.requests.entries s.numbers.entries };
}

impl Shelf {
    /// No requests.
    pub(crate) fn new(alloc: Global) -> Shelf
        ensures { result ≡ [] }
    {
        Shelf {
            next: 0,
            requests: BTreeMap::new(alloc),
            numbers: HashMap::new(alloc),
        }
    }

    /// The arrival number of an identity.
    pub(crate) fn number_of(&self, id: ReqId) -> Option<u64>
        ensures value { result ≡ number_of self.now id }
        ensures filed { AreFiled 0 self.now }
    {
        self.numbers.get(&id).copied()
    }

    /// The request with this arrival number.
    pub(crate) fn get(&self, number: u64) -> Option<&Request>
        ensures value { option_copied result ≡ kept_at self.now number }
        ensures not_last { IfSome result (λ _. number + 1 < 2 ^ 64) }
    {
        match self.requests.get(&number) {
            Some(request) => Some(request),
            None => None,
        }
    }

    /// Adds a request, whose identity must not be there, and returns its arrival number. The error is out of memory,
    /// also if the numbers are used up.
    pub(crate) fn push(&mut self, request: Request) -> Result<u64, NoMemory>
        requires { number_of self.old request.id ≡ None }
        ensures ok { IfOk result (λ k. self.new ≡ self.old ++ (k, request) ∷ []) }
        ensures filed { AreFiled 0 self.new }
        ensures err { OnErr result (self.new ≡ self.old) }
    {
        let id = request.id;
        let number = self.next;
        let next = sum(number, 1)?;
        self.numbers.reserve(1)?;
        self.requests.insert(number, request)?;
        if self.numbers.insert(id, number).is_err() {
            unreachable!();
        }
        self.next = next;
        Ok(number)
    }

    /// Takes out the request with this arrival number.
    pub(crate) fn remove(&mut self, number: u64) -> Option<Request>
        ensures value { result ≡ kept_at self.old number }
        ensures left { self.new ≡ remove_entry (λ j. is_eq (nat_cmp number j)) self.old }
        ensures filed { AreFiled 0 self.old }
        ensures filed_new { AreFiled 0 self.new }
        ensures fewer { length self.new + (if is_some result then 1 else 0) ≡ length self.old }
    {
        let request = self.requests.remove(&number)?;
        let _number = self.numbers.remove(&request.id);
        Some(request)
    }

    /// Queues for this number of buckets, with each arrival number in the queue of its bucket.
    pub(crate) fn queued(&self, alloc: Global, buckets: usize) -> Result<Queues, NoMemory>
        ensures count { IfOk result (λ queues. length queues ≡ buckets) }
        ensures queued { IfOk result (AreQueued self.now) }
    {
        let mut queues = Queues::empty(alloc, buckets)?;
        for (number, request) in self.requests.iter() {
            queues.add(request.id, *number)?;
        }
        Ok(queues)
    }

    /// The identities in order of arrival.
    pub(crate) fn identities(&self, alloc: Global) -> Result<Vec<ReqId>, NoMemory>
        ensures { IfOk result (λ is. is.items ≡ ids (values_of self.now)) }
    {
        let mut found = Vec::new(alloc);
        for request in self.requests.values() {
            found.push(request.id)?;
        }
        Ok(found)
    }

    /// Copies of the requests in order of arrival.
    pub(crate) fn copies(&self, alloc: Global) -> Result<Vec<Request>, NoMemory>
        ensures { IfOk result (λ rs. rs.items ≡ values_of self.now) }
    {
        let mut found = Vec::new(alloc);
        for request in self.requests.values() {
            found.push(request.copy()?)?;
        }
        Ok(found)
    }
}
