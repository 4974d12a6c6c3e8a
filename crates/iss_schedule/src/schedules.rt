//! The contents of a schedule.
use iss_request::bytes::Bytes;
use iss_request::ids::NodeId;
use iss_request::seqs::Seq;
use iss_request::setups::Setup;

/// One event of a run. Cores and packets are numbered from 0.
#[derive(Drop, Debug)]
pub enum Event {
    /// The core receives a request of the client, signed with the client's leaf `number`.
    Request {
        core: u32,
        client: u8,
        number: u32,
        payload: Bytes,
    },
    /// The core proposes a batch in its next slot.
    Propose {
        core: u32,
    },
    /// The core's timer for this leader's instance expires.
    Timeout {
        core: u32,
        leader: NodeId,
    },
    /// The core asks a node for the core's current epoch (ISS, state transfer).
    Ask {
        core: u32,
        peer: NodeId,
    },
    /// The packet is delivered to its core, even if it was delivered or lost before. It is not pending afterwards.
    Deliver {
        packet: u64,
    },
    /// The packet is lost: it is not pending afterwards.
    Lose {
        packet: u64,
    },
    /// Each packet that is pending now and whose core is not held is delivered, in ascending order.
    Pump,
    /// At most this many pumps; it stops when a pump would deliver nothing.
    Calm {
        pumps: u32,
    },
    /// Pumps skip the core from now on.
    Hold {
        core: u32,
    },
    /// Pumps include the core again.
    Free {
        core: u32,
    },
    /// All packets pending for the core are lost.
    Drop {
        core: u32,
    },
    /// The core's disk works again, and the core is recovered from its journal.
    Restart {
        core: u32,
    },
    /// This many more calls of the core's disk succeed; then all fail until it is restarted.
    Crash {
        core: u32,
        calls: u32,
    },
    /// The core receives these bytes as a packet.
    Bytes {
        core: u32,
        bytes: Bytes,
    },
}

/// The set-up of a cluster, and the events of its run, in order.
#[derive(Drop, Debug)]
pub struct Schedule {
    pub setup: Setup,
    pub events: Seq<Event>,
}
