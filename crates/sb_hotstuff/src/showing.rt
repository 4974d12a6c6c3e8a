//! The messages that broadcast quorum certificates.
ghost use Rattle.std.specs.Prelude.{◌≡◌, ◌==◌, ◌∷◌, [], Some, IfOk, if◌then◌else◌};
ghost use Rattle.iss_sb.specs.declared.effects.To.TheVariants.{All as To_all};
ghost use Rattle.sb_hotstuff.specs.Drafts.{AreDrafts};
ghost use Rattle.sb_hotstuff.specs.HotStuff.{shows};

use hs_tree::signing::{node_statement, start_statement};
use hs_tree::wire::{COMMIT, DECIDE, PRE_COMMIT};
use hs_tree::{Body, Certificate, Protocol};
use hs_views::{Draft, Recipient};
use iss_request::NoMemory;
use iss_sb::Params;
use std::alloc::Global;

// The message that broadcasts a certificate of this phase.
fn shown_body(phase: u8, view: u32, shown: Certificate) -> Body
    ensures { result ≡ shows phase view shown }
{
    match phase {
        1 => Body::PreCommit { view, shown },
        2 => Body::Commit { view, shown },
        _ => Body::Decide { view, shown },
    }
}

// The number of that message.
fn shown_kind(phase: u8) -> u8
    ensures { result ≡ (if phase == 1 then 3 else (if phase == 2 then 4 else 5)) }
{
    match phase {
        1 => PRE_COMMIT,
        2 => COMMIT,
        _ => DECIDE,
    }
}

/// A quorum certificate, to all: a PreCommit, Commit or Decide. The only error is out of memory.
pub fn shown_draft(
    alloc: Global,
    p: &Params,
    phase: u8,
    view: u32,
    shown: Certificate,
) -> Result<Draft, NoMemory>
    ensures { IfOk result (λ d. AreDrafts p.now (Some d) ((To_all, shows phase view shown) ∷ [])) }
{
    let tag = Protocol::Basic.tag();
    let digest = shown.digest();
    let out = start_statement(alloc, p, tag)?;
    let statement = node_statement(out, shown_kind(phase), view, &digest)?;
    let body = shown_body(phase, view, shown);
    Ok(Draft {
        to: Recipient::All,
        body,
        statement,
    })
}
