//! A cache of answers to signature checks. A signature travels with what it signs, so the same check is asked for
//! often. Each check is computed once; its answer is then found by all bytes of the question.

ghost use Rattle.std.specs.Prelude.{◌≡◌, ◌↔◌, ℕ, ◌*◌, ◌<◌, ◌≤◌, slice_get, IfOk, IfSome, IsSome, IsTrue};
ghost use Rattle.iss_keys.specs.Signatures.{Verifies};
ghost use Rattle.iss_keys.specs.Internal.Questions.{Question};

use crate::comparing::same_bytes;
use crate::places::{SET, fill_places, hash_on, put_first, word_at};
use crate::verification::{PublicKey, verify};
use iss_base::heights::digests_of_height;
use std::alloc::{AllocError, Global};
use std::cell::RefCell;
use std::marker::Model;

// Answers about longer statements (in bytes) are not cached, so that the memory is bounded.
const LONGEST_STATEMENT: usize = 1024;

// A question, with the right answer.
#[derive(Drop)]
struct Answer {
    key: PublicKey,
    statement: Vec<u8>,
    signature: Vec<u8>,
    verifies: bool,
}

impl Model for Answer {
    ghost Value = { Question };

    ghost view = { λ a. record { key = a.key; statement = a.statement.items; signature = a.signature.items } };

    ghost invariant = { λ a. IsTrue a.verifies ↔ Verifies a.key.root a.key.height a.statement.items a.signature.items };
}

impl Answer {
    // The question and its answer, as an entry of the cache.
    fn to(
        alloc: Global,
        key: &PublicKey,
        statement: &[u8],
        signature: &[u8],
        verifies: bool,
    ) -> Result<Answer, AllocError>
        requires { IsTrue verifies ↔ Verifies key.now.root key.now.height statement.now signature.now }
        ensures { IfOk result (λ a.
            a ≡ record { key = key.now; statement = statement.now; signature = signature.now }) }
    {
        let statement = statement.to_vec(alloc)?;
        let signature = signature.to_vec(alloc)?;
        Ok(Answer {
            key: *key,
            statement,
            signature,
            verifies,
        })
    }

    // The answer, if this entry is for the same question.
    // rule: Signatures: A remembered answer is found by all bytes of what was asked, never by a part
    fn answer(&self, key: &PublicKey, statement: &[u8], signature: &[u8]) -> Option<bool>
        ensures right { IfSome result
            (λ verifies. IsTrue verifies ↔ Verifies key.now.root key.now.height statement.now signature.now) }
        ensures found { self.now ≡ record { key = key.now; statement = statement.now; signature = signature.now } →
            IsSome result }
    {
        if self.key.root() == key.root()
            && self.key.height() == key.height()
            && self.statement.as_slice() == statement
            && same_bytes(self.signature.as_slice(), signature)
        {
            Some(self.verifies)
        } else {
            None
        }
    }
}

// The number of sets of the cache for `nodes` nodes. One message can carry, for each node of a quorum, a quorum's
// signatures for each of 64 slots. There is room for twice as many, up to 16,384; and for 8,192 at least, since a node
// that recovers checks each request of its journal again.
fn sets_for(n: usize) -> usize
    ensures low { 1 ≤ result }
    ensures high { result ≤ 8192 }
{
    let quorum = 2 * (n.min(40) / 3) + 1;
    let places = (128 * quorum * quorum).clamp(8192, 16_384);
    places.next_power_of_two() / SET
}

// Where the set of a question begins. Different questions may share a set; an attacker can make many do so, and then
// only the last few are cached.
fn set_of(n: usize, key: &PublicKey, statement: &[u8], signature: &[u8]) -> usize
    ensures { result < 4 * 8192 }
{
    let mut hash = word_at(&key.root(), 0);
    for place in 0..8usize {
        hash = hash_on(hash, word_at(statement, 8 * place));
    }
    // A signature begins with five bytes, the height and the leaf's number, followed by the value of a chain.
    hash = hash_on(hash, word_at(signature, 0));
    hash = hash_on(hash, word_at(signature, 5));
    hash_on(hash, statement.len() as u64) as usize % sets_for(n) * SET
}

// The answer to a question, if it is among these.
fn find_answer(
    answers: &[Option<Answer>],
    key: &PublicKey,
    statement: &[u8],
    signature: &[u8],
) -> Option<bool>
    ensures right { IfSome result
        (λ verifies. IsTrue verifies ↔ Verifies key.now.root key.now.height statement.now signature.now) }
    ensures found { (i : ℕ) →
        slice_get answers.now i ≡ Some
        (Some (record { key = key.now; statement = statement.now; signature = signature.now }))
        → IsSome result }
{
    'places: for place in answers {
        if let Some(answer) = place {
            let known = answer.answer(key, statement, signature);
            if known.is_some() {
                return known;
            }
        }
    }
    None
}

/// The cache. It allocates nothing before the first answer. If it is out of memory, an answer is not cached.
#[derive(Drop)]
pub struct Answers {
    alloc: Global,
    n: usize,
    places: RefCell<Vec<Option<Answer>>>,
}

impl Answers {
    /// An empty cache for `nodes` nodes.
    pub(crate) fn new(alloc: Global, n: usize) -> Answers {
        Answers {
            alloc,
            n,
            places: RefCell::new(Vec::new(alloc)),
        }
    }

    // The answer to a question, if it is cached.
    fn recall(&self, key: &PublicKey, statement: &[u8], signature: &[u8]) -> Option<bool>
        ensures { IfSome result (λ verifies.
            IsTrue verifies ↔ Verifies key.now.root key.now.height statement.now signature.now) }
    {
        let Ok(places) = self.places.try_borrow() else {
            return None;
        };
        let set = set_of(self.n, key, statement, signature);
        match places.get(set..set + SET) {
            Some(answers) => find_answer(answers, key, statement, signature),
            None => None,
        }
    }

    // Caches an answer. It replaces the oldest of its set.
    fn remember(&self, answer: Answer) {
        let Ok(mut places) = self.places.try_borrow_mut() else {
            return;
        };
        let _ = fill_places(&mut places, SET * sets_for(self.n));
        let set = set_of(
            self.n,
            &answer.key,
            answer.statement.as_slice(),
            answer.signature.as_slice(),
        );
        if set + SET <= places.len() {
            put_first(&mut places[set..set + SET], answer);
        }
    }

    /// Whether `signature` is a signature of `statement` under `key`: from the cache, or computed and then cached.
    pub fn verify(&self, key: &PublicKey, statement: &[u8], signature: &[u8]) -> bool
        ensures { IsTrue result ↔ Verifies key.now.root key.now.height statement.now signature.now }
    {
        // A signature of the wrong length is refused at once.
        if statement.len() > LONGEST_STATEMENT
            || signature.len() != 5 + 32 * digests_of_height(key.height())
        {
            return verify(key, statement, signature);
        }
        if let Some(verifies) = self.recall(key, statement, signature) {
            return verifies;
        }
        let verifies = verify(key, statement, signature);
        if let Ok(answer) = Answer::to(self.alloc, key, statement, signature, verifies) {
            self.remember(answer);
        }
        verifies
    }
}
