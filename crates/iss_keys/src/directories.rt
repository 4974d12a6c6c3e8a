//! The public keys of all nodes and clients.

ghost use Rattle.std.specs.Prelude.{◌≡◌, ◌↔◌, ℕ, List, ◌^◌, ◌<◌, ◌≤◌, length, map, slice_get, IfOk, IfSome, IsTrue};
ghost use Rattle.sha2.specs.Sha256.{sha256};
ghost use Rattle.iss_base.specs.Heights.{IsHeight};
ghost use Rattle.iss_keys.specs.KeyStates.{public_of};
ghost use Rattle.iss_keys.specs.Directories.{DirectoryView, directory_of, VerifiesBy, HasKeys, node_secret, client_secret};

use crate::answers::Answers;
use crate::digests::Digests;
use crate::heights::Height;
use crate::keyrings::Keyring;
use crate::marks::{CLIENT_SECRET, NODE_SECRET};
use crate::remembered::signatures_each;
use crate::signing::{Keys, NoMemory};
use crate::verification::PublicKey;
use std::alloc::Global;
use std::marker::Model;

/// The public keys of all nodes and clients, by number. Each secret is a function of its owner's number, so anyone can
/// compute it: the keys are for demonstration only.
#[derive(Drop)]
pub struct Directory {
    nodes: Keyring,
    clients: Keyring,
    answers: Answers,
    digests: Digests,
}

impl Model for Directory {
    ghost Value = { DirectoryView };

    ghost view = { λ d. record { nodes = d.nodes; clients = d.clients } };
}

// Whether `signature` is a signature of `statement` by the key with this number.
fn verify_by(
    keys: &Keyring,
    answers: &Answers,
    number: u8,
    statement: &[u8],
    signature: &[u8],
) -> bool
    ensures { IsTrue result ↔ VerifiesBy keys.now number statement.now signature.now }
{
    if keys.has_made(number, statement, signature) {
        return true;
    }
    match keys.key(number) {
        Some(key) => answers.verify(&key, statement, signature),
        None => false,
    }
}

impl Directory {
    /// The directory of nodes and clients whose keys all have height `height`. Each public key is computed when it is
    /// first needed, by 1,072 small hashes a leaf of its only or its top tree.
    // rule: Signatures: All keys are a function of the numbers of nodes and clients and the keys' height
    pub fn make(alloc: Global, n: u32, clients: u32, height: u8) -> Result<Directory, NoMemory>
        requires height { IsHeight height }
        ensures { IfOk result (λ d. d ≡ directory_of n clients height) }
    {
        let most = signatures_each(n, height);
        let height = Height { levels: height };
        let nodes = Keyring::own(alloc, NODE_SECRET, n, height, most)?;
        let clients = Keyring::own(alloc, CLIENT_SECRET, clients, height, 0)?;
        Ok(Directory {
            nodes,
            clients,
            answers: Answers::new(alloc, n as usize),
            digests: Digests::new(alloc),
        })
    }

    /// The same directory without memory: it computes keys again each time.
    pub(crate) fn alone(alloc: Global, n: u32, clients: u32, height: Height) -> Directory
        ensures { result ≡ directory_of n clients height.levels }
    {
        Directory {
            nodes: Keyring::alone(alloc, NODE_SECRET, n, height),
            clients: Keyring::alone(alloc, CLIENT_SECRET, clients, height),
            answers: Answers::new(alloc, n as usize),
            digests: Digests::new(alloc),
        }
    }

    /// The directory of given keys. If these are the nodes' and clients' own keys, it equals the one that `make`
    /// returns.
    pub fn of(alloc: Global, nodes: &[Keys], clients: &[Keys]) -> Result<Directory, NoMemory>
        ensures publics { IfOk result
            (λ d. d ≡ record { nodes = map public_of nodes.now; clients = map public_of clients.now }) }
        ensures made { (height : ℕ) → HasKeys node_secret height nodes.now → HasKeys client_secret height clients.now
            → IfOk result (λ d. d ≡ directory_of (length nodes.now) (length clients.now) height) }
    {
        let n = nodes.len();
        let nodes = Keyring::given(alloc, nodes)?;
        let clients = Keyring::given(alloc, clients)?;
        Ok(Directory {
            nodes,
            clients,
            answers: Answers::new(alloc, n),
            digests: Digests::new(alloc),
        })
    }

    /// The public key of a node, or None if no node has this number.
    pub fn node_key(&self, node: u8) -> Option<PublicKey>
        ensures { result ≡ slice_get self.now.nodes node }
    {
        self.nodes.key(node)
    }

    /// The public key of a client, or None if no client has this number.
    pub fn client_key(&self, client: u8) -> Option<PublicKey>
        ensures { result ≡ slice_get self.now.clients client }
    {
        self.clients.key(client)
    }

    /// The keys of a node, with no leaf used. They share their trees with this directory, so that each is computed
    /// once.
    pub fn keys_of_node(&self, alloc: Global, node: u8) -> Keys
        requires { node < length self.now.nodes }
        ensures own { IfSome (slice_get self.now.nodes node)
            (λ key. result ≡ record { secret = node_secret node; height = key.height; used = 0 }) }
        ensures made { (n clients height : ℕ) → self.now ≡ directory_of n clients height
            → result ≡ record { secret = node_secret node; height = height; used = 0 } }
    {
        self.keys_of_node_at(alloc, node, 0)
    }

    /// The keys of a node. The leaves below `next` are used.
    pub fn keys_of_node_at(&self, alloc: Global, node: u8, next: u32) -> Keys
        requires node { node < length self.now.nodes }
        requires next { IfSome (slice_get self.now.nodes node) (λ key. next ≤ 2 ^ key.height) }
        ensures own { IfSome (slice_get self.now.nodes node)
            (λ key. result ≡ record { secret = node_secret node; height = key.height; used = next }) }
        ensures made { (n clients height : ℕ) → self.now ≡ directory_of n clients height
            → result ≡ record { secret = node_secret node; height = height; used = next } }
    {
        self.nodes.keys(alloc, NODE_SECRET, node, next)
    }

    /// The keys of a client, with no leaf used. They share their trees with this directory too.
    pub fn keys_of_client(&self, alloc: Global, client: u8) -> Keys
        requires { client < length self.now.clients }
        ensures own { IfSome (slice_get self.now.clients client)
            (λ key. result ≡ record { secret = client_secret client; height = key.height; used = 0 }) }
        ensures made { (n clients height : ℕ) → self.now ≡ directory_of n clients height
            → result ≡ record { secret = client_secret client; height = height; used = 0 } }
    {
        self.clients.keys(alloc, CLIENT_SECRET, client, 0)
    }

    /// Whether `signature` is a signature of `statement` by a node. False if no node has this number.
    pub fn verify_node(&self, node: u8, statement: &[u8], signature: &[u8]) -> bool
        ensures { IsTrue result ↔ VerifiesBy self.now.nodes node statement.now signature.now }
    {
        verify_by(&self.nodes, &self.answers, node, statement, signature)
    }

    /// Whether `signature` is a signature of `statement` by a client. False if no client has this number.
    pub fn verify_client(&self, client: u8, statement: &[u8], signature: &[u8]) -> bool
        ensures { IsTrue result ↔ VerifiesBy self.now.clients client statement.now signature.now }
    {
        verify_by(&self.clients, &self.answers, client, statement, signature)
    }
    /// The SHA-256 digest of a string. Digests of longer strings are cached for a while.
    pub fn digest(&self, string: &[u8]) -> [u8; 32]
        ensures { result ≡ sha256 string.now }
    {
        self.digests.digest(string)
    }
}
