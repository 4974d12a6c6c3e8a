// How far a loop has come, beside its events and its links.
ghost use Rattle.std.specs.Prelude.{◌≡◌, true, false};

/// How far a loop has come, beside its events and its links.
#[derive(Clone, Copy, Debug)]
pub struct Progress {
    /// No core has proposed in this turn, and no packet has arrived.
    pub idle: bool,
    /// How many turns in a row before this one were idle.
    pub idle_turns: u32,
    /// The next event would have passed the limits of the trace.
    pub full: bool,
}

impl Progress {
    /// The progress of a loop that begins.
    pub fn new() -> Progress
        ensures { result ≡ record { idle = true; idle_turns = 0; full = false } }
    {
        Progress {
            idle: true,
            idle_turns: 0,
            full: false,
        }
    }
}
