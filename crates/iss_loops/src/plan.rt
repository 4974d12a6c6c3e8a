// The plan of a loop.

/// The plan of a loop.
#[derive(Clone, Copy, Debug)]
pub struct Plan {
    /// How many requests it makes.
    pub requests: u32,
    /// How many turns it takes.
    pub turns: u32,
    /// How many frames a core takes in a turn at most.
    pub frames: u32,
    /// After how many idle turns in a row the cores wake up.
    pub patience: u32,
}
