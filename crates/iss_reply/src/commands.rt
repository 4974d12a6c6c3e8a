//! What a payload asks of the store.
ghost use Rattle.std.specs.Prelude.{◌≡◌};
ghost use Rattle.iss_reply.specs.Commands.{CommandView, action_of, command_of, fits};

use std::marker::Model;

/// What a command does with its key.
#[derive(Clone, Copy, Debug, PartialEq, Eq)]
pub enum Action {
    /// Asks for the value.
    Get,
    /// Writes a value.
    Put,
    /// Removes the value.
    Delete,
}

/// A command, which borrows the bytes of a payload. The value of a get or a delete is empty.
#[derive(Drop)]
pub struct Command<'a> {
    pub(crate) action: Action,
    pub(crate) key: &'a [u8],
    pub(crate) value: &'a [u8],
}

impl<'a> Model for Command<'a> {
    ghost use Rattle.iss_reply.specs.Commands.{CommandView};

    ghost Value = { CommandView };

    ghost view = { λ c. record { action = c.action; key = c.key.now; value = c.value.now } };
}

// The action of a payload's first byte.
fn action_of(kind: u8) -> Option<Action>
    ensures { result ≡ action_of kind }
{
    match kind {
        0 => Some(Action::Get),
        1 => Some(Action::Put),
        2 => Some(Action::Delete),
        _ => None,
    }
}

// Whether a key of `n` bytes fits a rest of `m` bytes.
fn fits(action: Action, n: usize, m: usize) -> bool
    ensures { result ≡ fits action n m }
{
    match action {
        Action::Get => n == m,
        Action::Put => n <= m,
        Action::Delete => n == m,
    }
}

/// The command of a payload, or `None` if it is malformed.
// rule: Replies: A payload is a get, put or delete of a key, with bytes behind the key only in a put
pub fn command_of(payload: &[u8]) -> Option<Command<'_>>
    ensures { result ≡ command_of payload.now }
{
    match payload {
        [kind, length, rest @ ..] => {
            let n = *length as usize;
            let action = action_of(*kind)?;
            if !fits(action, n, rest.len()) {
                return None;
            }
            Some(Command {
                action,
                key: &rest[..n],
                value: &rest[n..],
            })
        }
        _ => None,
    }
}
