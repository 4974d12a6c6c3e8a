//! Which certificates and ViewChanges are good by their form. Their signatures are verified apart, as claims.
ghost use Rattle.std.specs.Prelude.{◌≡◌, ◌≤◌};
ghost use Rattle.iss_request.specs.Formats.{is_batch};
ghost use Rattle.iss_request.specs.Setup.{IsGoodSetup};
ghost use Rattle.iss_sb.specs.Calls.{has_slot};
ghost use Rattle.pbft_views.specs.Good.{all_good, are_changes, are_enough, are_voters, is_good, primary};

use iss_request::{NodeId, Slot, Value};
use iss_sb::{Params, Signed};
use pbft_wire::{Certificate, Change};

/// The parameters of an instance, whose 1 to 256 replicas take turns as its primary.
#[derive(Drop)]
pub(crate) struct Turns<'a> {
    pub(crate) p: &'a Params,
    ghost some: { 1 ≤ p.now.setup.n },
    ghost few: { p.now.setup.n ≤ 256 },
}

impl<'a> Turns<'a> {
    /// Of parameters with a good set-up.
    pub(crate) fn of(p: &'a Params) -> Turns<'a>
        requires { IsGoodSetup p.now.setup }
        ensures { result.p.now ≡ p.now }
    {
        Turns { p }
    }

    /// The primary of a view: the leader of the segment in view 0, and then the replicas in turn.
    pub(crate) fn primary(&self, view: u16) -> NodeId
        ensures { result.0 ≡ primary self.now.p.now view }
    {
        let turn = self.p.leader.0 as u32 + view as u32;
        NodeId((turn % self.p.setup.n) as u8)
    }

    // Whether a certificate is good.
    // rule: PBFT: A prepared certificate has Prepares of 2f distinct replicas other than the primary
    fn is_good(&self, c: &Certificate) -> bool
        ensures { result ≡ is_good self.now.p.now c.now }
    {
        let p = self.p;
        has_slot(p, c.slot)
            && c.prepares.len() == 2 * p.setup.f as usize
            && are_voters(p, self.primary(c.view), 0, c.prepares.as_slice())
            && (0 < c.view || is_batch(&c.value))
    }

    // Whether all certificates are good and of lower views than `view`.
    fn all_good(&self, view: u16, certificates: &[Certificate]) -> bool
        ensures { result ≡ all_good self.now.p.now view certificates.now }
    {
        match certificates {
            [] => true,
            [first, others @ ..] => {
                self.is_good(first) && first.view < view && self.all_good(view, others)
            }
        }
    }

    // Whether these are ViewChanges for `view` with good certificates of lower views, their senders strictly ascending
    // and not below `from`.
    fn are_changes(&self, view: u16, from: u32, changes: &[Change]) -> bool
        ensures { result ≡ are_changes self.now.p.now view from changes.now }
    {
        match changes {
            [] => true,
            [first, others @ ..] => {
                let node = first.node.0 as u32;
                from <= node
                    && node < self.p.setup.n
                    && first.view == view
                    && self.all_good(view, first.certificates.as_slice())
                    && self.are_changes(view, node + 1, others)
            }
        }
    }
}

/// The primary of a view: the leader of the segment in view 0, and then the replicas in turn.
pub fn primary(p: &Params, view: u16) -> NodeId
    requires { IsGoodSetup p.now.setup }
    ensures { result.0 ≡ primary p.now view }
{
    Turns::of(p).primary(view)
}

/// Whether the slot is one of the segment.
pub fn has_slot(p: &Params, slot: Slot) -> bool
    ensures { result ≡ has_slot slot.0 p.now.slots }
{
    p.slots.as_slice().contains(&slot)
}

// Whether the voters are replicas other than `but`, strictly ascending and not below `from`.
fn are_voters(p: &Params, but: NodeId, from: u32, votes: &[Signed]) -> bool
    ensures { result ≡ are_voters p.now but.0 from votes.now }
{
    match votes {
        [] => true,
        [first, others @ ..] => {
            let node = first.by.0 as u32;
            from <= node
                && node < p.setup.n
                && first.by.0 != but.0
                && are_voters(p, but, node + 1, others)
        }
    }
}

fn is_batch(value: &Value) -> bool
    ensures { result ≡ is_batch value.now }
{
    match value {
        Value::Nil => false,
        Value::Batch(_) => true,
    }
}

/// Whether a certificate is good: its slot is in the segment, it has Prepares of exactly 2f distinct replicas other
/// than the primary, and in view 0 its value is a batch.
pub fn is_good(p: &Params, c: &Certificate) -> bool
    requires { IsGoodSetup p.now.setup }
    ensures { result ≡ is_good p.now c.now }
{
    Turns::of(p).is_good(c)
}

/// Whether all certificates are good and of lower views than `view`.
pub fn all_good(p: &Params, view: u16, certificates: &[Certificate]) -> bool
    requires { IsGoodSetup p.now.setup }
    ensures { result ≡ all_good p.now view certificates.now }
{
    Turns::of(p).all_good(view, certificates)
}

/// Whether a NewView may hold these ViewChanges: 2f+1, of distinct replicas, for this view, with good certificates.
// rule: PBFT: A new view needs ViewChanges of 2f+1 distinct replicas with certificates of lower views
pub fn are_enough(p: &Params, view: u16, changes: &[Change]) -> bool
    requires { IsGoodSetup p.now.setup }
    ensures { result ≡ are_enough p.now view changes.now }
{
    changes.len() == 2 * p.setup.f as usize + 1 && Turns::of(p).are_changes(view, 0, changes)
}
