//! The words that begin the lines of events.
ghost use Rattle.std.specs.Prelude.{◌≡◌, ◌≢◌, ◌↔◌, IsTrue, IfSome, IfNone};
ghost use Rattle.iss_schedule.specs.Names.{text_of_name};
ghost use Rattle.iss_schedule.specs.declared.names.Name.{Name};

/// The word that begins the line of an event.
#[derive(Clone, Copy, Debug, PartialEq, Eq)]
pub enum Name {
    Request,
    Propose,
    Timeout,
    Ask,
    Deliver,
    Lose,
    Pump,
    Calm,
    Hold,
    Free,
    Drop,
    Restart,
    Crash,
    Bytes,
}

/// Whether two texts are equal.
pub fn is_same(a: &[u8], b: &[u8]) -> bool
    ensures { IsTrue result ↔ (a.now ≡ b.now) }
{
    a == b
}

/// The text of a name.
pub fn text_of(name: Name) -> &'static [u8]
    ensures { result.now ≡ text_of_name name }
{
    match name {
        Name::Request => b"request",
        Name::Propose => b"propose",
        Name::Timeout => b"timeout",
        Name::Ask => b"ask",
        Name::Deliver => b"deliver",
        Name::Lose => b"lose",
        Name::Pump => b"pump",
        Name::Calm => b"calm",
        Name::Hold => b"hold",
        Name::Free => b"free",
        Name::Drop => b"drop",
        Name::Restart => b"restart",
        Name::Crash => b"crash",
        Name::Bytes => b"bytes",
    }
}

/// The name with this text.
pub fn name_of(word: &[u8]) -> Option<Name>
    ensures some { IfSome result (λ name. word.now ≡ text_of_name name) }
    ensures none { IfNone result ((name : Name) → word.now ≢ text_of_name name) }
{
    if is_same(word, b"request") {
        Some(Name::Request)
    } else if is_same(word, b"propose") {
        Some(Name::Propose)
    } else if is_same(word, b"timeout") {
        Some(Name::Timeout)
    } else if is_same(word, b"ask") {
        Some(Name::Ask)
    } else if is_same(word, b"deliver") {
        Some(Name::Deliver)
    } else if is_same(word, b"lose") {
        Some(Name::Lose)
    } else if is_same(word, b"pump") {
        Some(Name::Pump)
    } else if is_same(word, b"calm") {
        Some(Name::Calm)
    } else if is_same(word, b"hold") {
        Some(Name::Hold)
    } else if is_same(word, b"free") {
        Some(Name::Free)
    } else if is_same(word, b"drop") {
        Some(Name::Drop)
    } else if is_same(word, b"restart") {
        Some(Name::Restart)
    } else if is_same(word, b"crash") {
        Some(Name::Crash)
    } else if is_same(word, b"bytes") {
        Some(Name::Bytes)
    } else {
        None
    }
}
