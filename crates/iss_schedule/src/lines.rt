//! The lines of a text, read one by one.
ghost use Rattle.std.specs.Prelude.{◌≡◌, ◌↔◌, ◌<◌, ◌+◌, ◌^◌, ◌-◌, [], IsTrue, IfOk, IfErr, OnErr};
ghost use Rattle.iss_schedule.specs.Places.{Place, GoesPast};
ghost use Rattle.iss_schedule.specs.Words.{Lacks};

use crate::errors::LineFault;
use crate::words::cut_at;
use std::marker::Model;

/// The lines that are still to be read, and how many were read.
#[derive(Drop)]
pub struct Lines<'a> {
    rest: &'a [u8],
    read: u32,
}

impl<'a> Model for Lines<'a> {
    ghost use Rattle.iss_schedule.specs.Places.{Place};

    ghost Value = { Place };

    ghost view = { λ l. record { rest = l.rest.now; read = l.read } };
}

impl<'a> Lines<'a> {
    /// All lines of the text.
    pub fn of(text: &'a [u8]) -> Lines<'a>
        ensures { result ≡ record { rest = text.now; read = 0 } }
    {
        Lines {
            rest: text,
            read: 0,
        }
    }

    /// How many lines were read.
    pub fn read(&self) -> u32
        ensures { result ≡ self.now.read }
    {
        self.read
    }

    /// The text that is still to be read.
    pub fn rest(&self) -> &'a [u8]
        ensures { result.now ≡ self.now.rest }
    {
        self.rest
    }

    /// Whether no line is left.
    pub fn is_done(&self) -> bool
        ensures { IsTrue result ↔ (self.now.rest ≡ []) }
    {
        self.rest.is_empty()
    }

    /// The next line, without its line feed.
    pub fn next(&mut self) -> Result<&'a [u8], LineFault>
        requires { self.old.read < 2 ^ 32 - 1 }
        ensures read { self.new.read ≡ self.old.read + 1 }
        ensures ok { IfOk result (λ line. GoesPast line.now self.old self.new) }
        ensures cut { IfErr result (λ why. why ≡ LineFault.Cut) }
        ensures unended { IfErr result (λ _. Lacks 10 self.old.rest) }
        ensures kept { OnErr result (self.new.rest ≡ self.old.rest) }
    {
        self.read += 1;
        match cut_at(self.rest, b'\n') {
            Some((line, rest)) => {
                self.rest = rest;
                Ok(line)
            }
            None => Err(LineFault::Cut),
        }
    }
}
