//! Requests, batches, and the values of slots.
ghost use Rattle.std.specs.Prelude.{◌≡◌, length, [], ◌∷◌, ◌++◌, IfOk, OnOk, OnErr};

use crate::bytes::Bytes;
use crate::errors::NoMemory;
use crate::ids::ReqId;
use std::alloc::Global;
use std::marker::Model;

/// A client's signed request.
#[derive(Drop, Clone, Debug)]
pub struct Request {
    pub id: ReqId,
    pub payload: Bytes,
    pub sig: Bytes,
}

impl Request {
    /// A copy.
    pub fn copy(&self) -> Result<Request, NoMemory>
        ensures { IfOk result (λ r. r ≡ self.now) }
    {
        Ok(self.clone()?)
    }
}

/// A list of requests.
#[derive(Drop, Clone, Debug)]
pub struct Batch {
    all: Vec<Request>,
}

impl Model for Batch {
    ghost use Rattle.std.specs.Prelude.{List};
    ghost use Rattle.iss_request.specs.declared.requests.Request.{Request};

    ghost Value = { List Request };

    ghost view = { λ b. b.all.items };
}

impl Batch {
    /// The empty batch, which is not nil.
    pub fn new(alloc: Global) -> Batch
        ensures { result ≡ [] }
    {
        Batch {
            all: Vec::new(alloc),
        }
    }

    /// These requests.
    pub fn of(all: Vec<Request>) -> Batch
        ensures { result ≡ all.items }
    {
        Batch { all }
    }

    /// The number of requests.
    pub fn len(&self) -> usize
        ensures { result ≡ length self.now }
    {
        self.all.len()
    }

    /// The requests as a slice.
    pub fn as_slice(&self) -> &[Request]
        ensures { result.now ≡ self.now }
    {
        self.all.as_slice()
    }

    /// The requests.
    pub fn into_requests(self) -> Vec<Request>
        ensures { result.items ≡ self }
    {
        self.all
    }

    /// A copy.
    pub fn copy(&self) -> Result<Batch, NoMemory>
        ensures { IfOk result (λ b. b ≡ self.now) }
    {
        Ok(self.clone()?)
    }

    /// Appends a request.
    pub fn push(&mut self, request: Request) -> Result<(), NoMemory>
        ensures ok { OnOk result (self.new ≡ self.old ++ request ∷ []) }
        ensures err { OnErr result (self.new ≡ self.old) }
    {
        self.all.push(request)?;
        Ok(())
    }
}

/// The value of a log's slot: nil, or a batch, which may be empty.
#[derive(Drop, Clone, Debug)]
pub enum Value {
    Nil,
    Batch(Batch),
}

impl Value {
    /// A copy.
    pub fn copy(&self) -> Result<Value, NoMemory>
        ensures { IfOk result (λ v. v ≡ self.now) }
    {
        Ok(self.clone()?)
    }
}
