//! The client windows.
ghost use Rattle.std.specs.Prelude.{◌≡◌, ◌<◌, ℕ, false, length, slice_index, IfOk, OnOk, OnErr};
ghost use Rattle.iss_request.specs.Log.{has_id};
ghost use Rattle.iss_request.specs.declared.ids.ReqId.{ReqId};
ghost use Rattle.iss_window.specs.Kept.{IsTable, RefinesNoted, is_noted, is_set};
ghost use Rattle.iss_window.specs.Window.{Noted, and_closed, and_noted, none_noted, place_of};

use crate::spans::{BITS, Span, has_bit, raise, with_bit};
use iss_request::{NoMemory, ReqId, Setup};
use std::alloc::Global;
use std::collections::BTreeSet;
use std::marker::Model;

/// The most clients: identities have one byte.
const CLIENTS: usize = 256;

/// Where a request's number lies relative to its client's window.
#[derive(Clone, Copy, Debug, PartialEq, Eq)]
pub enum Place {
    Below,
    Inside,
    Above,
}

/// The window of each client, and the noted identities. A window begins at the client's low watermark: its least number
/// that was not noted before the last epoch's end.
///
/// A client takes 16 bytes: its low watermark, and one bit for each of the 64 numbers from there on. All 256 clients
/// take 4 KiB. A noted number behind these 64 is a stray: 8 bytes in an ordered set, until its client's low watermark
/// comes within 64 of it. The windows of a set-up are at most 64 wide. So there is no stray where each number was
/// inside its window when it was noted (`windows_used_in_order_have_no_strays`), and then the memory for identities is
/// constant, however long the log is.
#[derive(Drop)]
pub struct Windows {
    width: u32,
    // the low watermark of each client
    lows: Vec<u64>,
    // bit k of a client: whether the number k above its low watermark was noted
    bits: Vec<u64>,
    // the noted identities behind the bits
    pub(crate) strays: BTreeSet<ReqId>,
}

impl Model for Windows {
    ghost use Rattle.iss_window.specs.Kept.{IsTable, Kept};

    ghost Value = { Kept };

    ghost view = { λ w. record { width = w.width; lows = w.lows.items; bits = w.bits.items; strays = w.strays.keys } };

    ghost invariant = { λ w. IsTable w.lows.items w.bits.items w.strays.keys };
}

impl Windows {
    /// All windows begin at 0, and nothing is noted.
    pub fn new(alloc: Global, setup: &Setup) -> Result<Windows, NoMemory>
        ensures none { IfOk result (λ w. RefinesNoted w none_noted) }
        ensures width { IfOk result (λ w. w.width ≡ setup.now.window) }
    {
        Ok(Windows {
            width: setup.window,
            lows: zeros(alloc, CLIENTS)?,
            bits: zeros(alloc, CLIENTS)?,
            strays: BTreeSet::new(alloc),
        })
    }

    /// Where the identity lies relative to its client's window.
    // rule: Windows: A number is inside its window from the first number on, up to the window's width
    pub fn test(&self, id: ReqId) -> Place
        ensures { (n : Noted) → RefinesNoted self.now n → result ≡ place_of self.now.width n.closed id }
    {
        let low = self.lows[id.client as usize];
        let number = id.number as u64;
        if number < low {
            Place::Below
        } else if number < low + self.width as u64 {
            Place::Inside
        } else {
            Place::Above
        }
    }

    /// Whether the identity was noted.
    // rule: Windows: A number is ordered if it is below its client's least unordered one or was recorded
    pub fn ordered(&self, id: ReqId) -> bool
        ensures { (n : Noted) → RefinesNoted self.now n → result ≡ has_id id n.all }
    {
        let client = id.client as usize;
        let number = id.number as u64;
        let low = self.lows[client];
        if number < low {
            return true;
        }
        if number < low + BITS {
            return has_bit(self.bits[client], number - low);
        }
        self.strays.contains(&id)
    }

    /// Notes an ordered identity. Windows do not move before the epoch ends. The only error is out of memory.
    pub fn note(&mut self, id: ReqId) -> Result<(), NoMemory>
        ensures ok { OnOk result ((n : Noted) → RefinesNoted self.old n → RefinesNoted self.new (and_noted n id)) }
        ensures width { self.new.width ≡ self.old.width }
        ensures err { OnErr result (self.new ≡ self.old) }
    {
        let client = id.client as usize;
        let number = id.number as u64;
        let low = self.lows[client];
        if number < low {
            return Ok(());
        }
        if number < low + BITS {
            let bits = self.bits[client];
            self.bits[client] = with_bit(bits, number - low);
            return Ok(());
        }
        self.strays.insert(id)?;
        Ok(())
    }

    /// Ends the epoch: each window moves to the client's least number that was not noted.
    pub fn close_epoch(&mut self)
        ensures closed { (n : Noted) → RefinesNoted self.old n → RefinesNoted self.new (and_closed n) }
        ensures width { self.new.width ≡ self.old.width }
    {
        raise_all(&mut self.lows, &mut self.bits, &mut self.strays);
    }
}

// n zeros.
fn zeros(alloc: Global, count: usize) -> Result<Vec<u64>, NoMemory>
    ensures size { IfOk result (λ v. length v.items ≡ count) }
    ensures zero { IfOk result (λ v. (i : ℕ) → slice_index v.items i ≡ 0) }
{
    let mut zeros = Vec::with_capacity(alloc, count)?;
    for _i in 0..count {
        zeros.push(0)?;
    }
    Ok(zeros)
}

// Raises each client's low watermark past the noted numbers that follow it.
fn raise_all(lows: &mut Vec<u64>, bits: &mut Vec<u64>, strays: &mut BTreeSet<ReqId>)
    requires table { IsTable lows.old.items bits.old.items strays.old.keys }
    ensures table { IsTable lows.new.items bits.new.items strays.new.keys }
    ensures same { (id : ReqId) → is_noted lows.new.items bits.new.items strays.new.keys id
        ≡ is_noted lows.old.items bits.old.items strays.old.keys id }
    ensures raised { (client : ℕ) → client < 256 → is_set (slice_index bits.new.items client) 0 ≡ false }
{
    for client in 0..CLIENTS {
        let low = lows[client];
        let marks = bits[client];
        let span = Span { low, bits: marks };
        let raised = raise(strays, client as u8, span);
        lows[client] = raised.low;
        bits[client] = raised.bits;
    }
}
