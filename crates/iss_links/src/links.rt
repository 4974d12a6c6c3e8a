// The trait of links.
ghost use Rattle.std.specs.Prelude.{◌≡◌, ◌<◌, ◌≤◌, ◌+◌, ℕ, List, Option, OnOk, IfOk, IsErrOf};
ghost use Rattle.iss_links.specs.Calls.{HasCause, IfTold, Becomes};
ghost use Rattle.iss_links.specs.Ends.{End, IsArrival, after_send, after_take};

use crate::EndError;

/// What a take gives.
#[derive(Debug, Drop)]
pub enum Arrival {
    /// A frame was taken, and completed this packet.
    Got(Vec<u8>),
    /// A frame was taken, and completed no packet.
    Part,
    /// No frame waited.
    Nothing,
}

/// Links between ends with numbers below 256. A packet is sent to an end as frames, and reassembled from the frames
/// that are taken there.
///
/// The clauses speak of the frames that links record. Links over sockets record none: their frames may be lost,
/// repeated and reordered, and may come from anybody. After `NoMemory` nothing is claimed of the ends.
pub trait Links {
    /// The frames that wait at each end, and its partial packets, if frames are recorded.
    ghost ends: { Self → Option (List End) };

    /// How many calls have failed. The count stops at 2^64 - 1.
    ghost faults: { Self → ℕ };

    /// Makes the ends `first` to `first + count - 1`. End i is at port `port + i`.
    fn attach(&mut self, port: u16, first: u32, count: u32) -> Result<(), EndError>
        requires port { port ≤ 65000 }
        requires ends { first + count ≤ 256 }
        ensures ends { OnOk result (ends self.new ≡ ends self.old) }
        ensures failed { IsErrOf result EndError.Failed → ends self.new ≡ ends self.old }
        ensures cause { HasCause (faults self.old) (faults self.new) (IsErrOf result EndError.Failed) };

    /// Sends packet `number` of sender `from` to end `to`. A packet that is empty or longer than 200,000,016 bytes is
    /// not sent.
    fn send(&mut self, from: u32, number: u64, to: u32, packet: &[u8]) -> Result<(), EndError>
        requires from { from < 256 }
        requires to { to < 256 }
        ensures ends { OnOk result (Becomes (after_send from number to packet.now) (ends self.old) (ends self.new)) }
        ensures failed { IsErrOf result EndError.Failed → ends self.new ≡ ends self.old }
        ensures cause { HasCause (faults self.old) (faults self.new) (IsErrOf result EndError.Failed) };

    /// Takes one frame at an end, if one waits there.
    fn take(&mut self, at: u32) -> Result<Arrival, EndError>
        requires { at < 256 }
        ensures arrival { IfOk result (λ arrival. IfTold (ends self.old) (λ ends. IsArrival at ends arrival)) }
        ensures ends { OnOk result (Becomes (after_take at) (ends self.old) (ends self.new)) }
        ensures failed { IsErrOf result EndError.Failed → ends self.new ≡ ends self.old }
        ensures cause { HasCause (faults self.old) (faults self.new) (IsErrOf result EndError.Failed) };
}
