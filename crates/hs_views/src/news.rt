//! The NewView messages that the leader of a round received.
ghost use Rattle.std.specs.Prelude.{◌≡◌, ◌∷◌, List, [], length, is_some, IfOk, OnOk};
ghost use Rattle.std.specs.Option.{option_copied};
ghost use Rattle.hs_tree.specs.declared.certificates.Certificate.TheVariants.{Root};
ghost use Rattle.hs_views.specs.Views.{News, all_news, best, news_of};
ghost use Rattle.hs_views.specs.Counts.{AreNews, better, word_at};

use hs_tree::Certificate;
use iss_request::NoMemory;
use std::alloc::Global;
use std::collections::BTreeMap;

/// The key of a NewView message: its sender and its round.
#[derive(PartialEq, Eq, PartialOrd, Ord, Drop)]
pub struct Sender {
    pub by: u8,
    pub round: u16,
}

/// The certificate of each NewView message received.
#[derive(Drop)]
pub struct Words {
    all: BTreeMap<Sender, Certificate>,
}

// The certificate with the higher view, `found` if they are equal. The only error is out of memory.
fn better(
    alloc: Global,
    found: Certificate,
    other: Option<&Certificate>,
) -> Result<Certificate, NoMemory>
    ensures { IfOk result (λ c. c ≡ better found (option_copied other.entry)) }
{
    let Some(other) = other else {
        return Ok(found);
    };
    if found.view() < other.view() {
        return other.copy(alloc);
    }
    Ok(found)
}

impl Words {
    /// No messages.
    pub fn new(alloc: Global) -> Words
        ensures { AreNews result [] }
    {
        Words {
            all: BTreeMap::new(alloc),
        }
    }

    // The certificate of this replica's message for the round, if one was received.
    fn at(&self, by: u8, round: u16) -> Option<&Certificate>
        ensures { option_copied result ≡ word_at self.now by round }
    {
        let sender = Sender { by, round };
        self.all.get(&sender)
    }

    /// Whether this replica's message for the round was received.
    pub fn has(&self, by: u8, round: u16) -> bool
        ensures { (ws : List News) → AreNews self.now ws → result ≡ is_some (news_of ws round by) }
    {
        self.at(by, round).is_some()
    }

    /// How many of replicas 0 to `n` - 1 sent a message for the round.
    pub fn count(&self, n: u8, round: u16) -> u32
        ensures { (ws : List News) → AreNews self.now ws → result ≡ length (all_news n ws round) }
    {
        let mut count = 0u32;
        for by in 0..n {
            if self.at(by, round).is_some() {
                count += 1;
            }
        }
        count
    }

    /// The certificate with the highest view in the messages of replicas 0 to `n` - 1 (HotStuff: highQC). Ties go to
    /// the lowest replica; without messages it is the root's. The only error is out of memory.
    pub fn best(&self, alloc: Global, n: u8, round: u16) -> Result<Certificate, NoMemory>
        ensures { IfOk result (λ c. (ws : List News) → AreNews self.now ws → c ≡ best Root (all_news n ws round)) }
    {
        let mut found = Certificate::Root;
        for by in 0..n {
            found = better(alloc, found, self.at(by, round))?;
        }
        Ok(found)
    }

    /// Adds a message, or replaces its certificate. The only error is out of memory.
    pub fn keep(&mut self, by: u8, round: u16, high: Certificate) -> Result<(), NoMemory>
        ensures { OnOk result ((w : News) (ws : List News) → w ≡ record { by = by; round = round; high = high } →
            AreNews self.old ws → AreNews self.new (w ∷ ws)) }
    {
        let sender = Sender { by, round };
        self.all.insert(sender, high)?;
        Ok(())
    }
}
