//! A reader and a writer of fields. Numbers of several bytes are big-endian. Both carry the version of the formats.
ghost use Rattle.std.specs.Prelude.{◌≡◌, ◌≢◌, ℕ, ◌+◌, ◌*◌, ◌/◌, ◌^◌, ◌<◌, ◌≤◌, [], ◌∷◌, ◌++◌, length, drop, OnOk, OnErr, IfOk, IfSome, IfNone, IsTrue, ◌↔◌, Err};
ghost use Rattle.std.specs.Int.{w16, w32, w64, to_be_bytes};
ghost use Rattle.iss_request.specs.Fields.{Reading, Written, and_bytes, left, IsRead, IsUnreadable};
ghost use Rattle.iss_request.specs.Parsing.{byte, number, block, digests};

use crate::bytes::Bytes;
use crate::errors::{DecodeError, NoMemory};
use std::alloc::Global;
use std::marker::Model;

/// A reader of bytes, from first to last.
#[derive(Drop)]
pub struct Fields<'a> {
    version: u8,
    all: &'a [u8],
    at: usize,
    // The bytes it reads, if what is read may share them.
    home: Option<&'a Bytes>,
}

impl<'a> Model for Fields<'a> {
    ghost use Rattle.std.specs.Prelude.{length, ◌≤◌, ◌≡◌, IfSome};
    ghost use Rattle.iss_request.specs.Fields.{Reading};

    ghost Value = { Reading };

    ghost view = { λ f. record { version = f.version; all = f.all.now; at = f.at } };

    ghost invariant = { λ f. (f.at ≤ length f.all.now) × IfSome f.home (λ bytes. bytes.now ≡ f.all.now) };
}

impl<'a> Fields<'a> {
    /// A reader at the start of these bytes, for a version.
    pub fn over(version: u8, all: &'a [u8]) -> Fields<'a>
        ensures { result ≡ record { version = version; all = all.now; at = 0 } }
    {
        Fields {
            version,
            all,
            at: 0,
            home: None,
        }
    }

    /// A reader at the start of these bytes. What it reads shares their memory if their copies do.
    pub fn over_bytes(version: u8, bytes: &'a Bytes) -> Fields<'a>
        ensures { result ≡ record { version = version; all = bytes.now; at = 0 } }
    {
        Fields {
            version,
            all: bytes.as_slice(),
            at: 0,
            home: Some(bytes),
        }
    }

    /// The version of the formats.
    pub fn version(&self) -> u8
        ensures { result ≡ self.now.version }
    {
        self.version
    }

    /// The offset of the next byte.
    pub fn at(&self) -> usize
        ensures { result ≡ self.now.at }
    {
        self.at
    }

    /// Whether all bytes are read.
    pub fn is_done(&self) -> bool
        ensures { IsTrue result ↔ (length self.now.all ≤ self.now.at) }
    {
        self.at >= self.all.len()
    }

    /// The error for the next field.
    // rule: Formats: A decoding error names the offset of the first field that does not fit
    pub fn bad_field(&self) -> DecodeError
        ensures { result ≡ DecodeError.BadField self.now.at }
    {
        DecodeError::BadField { at: self.at as u64 }
    }

    // The error for the first incomplete field of 32 bytes.
    fn bad_digest(&self) -> DecodeError
        ensures { result ≡ DecodeError.BadField (self.now.at + 32 * (length (left self.now) / 32)) }
    {
        let whole = (self.all.len() - self.at) / 32 * 32;
        DecodeError::BadField {
            at: (self.at + whole) as u64,
        }
    }

    /// The next byte.
    pub fn take_u8(&mut self) -> Option<u8>
        ensures some { IfSome result (λ b. left self.old ≡ b ∷ left self.new) }
        ensures moved { IfSome result (λ _. self.new ≡ record self.old { at = self.old.at + 1 }) }
        ensures none { IfNone result (left self.old ≡ []) }
        ensures still { IfNone result (self.new ≡ self.old) }
    {
        if self.at < self.all.len() {
            let byte = self.all[self.at];
            self.at += 1;
            Some(byte)
        } else {
            None
        }
    }

    /// The next `len` bytes. `None` if there are fewer; then nothing is consumed.
    pub fn take_bytes(&mut self, count: usize) -> Option<&'a [u8]>
        ensures some { IfSome result (λ bytes. left self.old ≡ bytes.now ++ left self.new) }
        ensures long { IfSome result (λ bytes. length bytes.now ≡ count) }
        ensures moved { IfSome result (λ _. self.new ≡ record self.old { at = self.old.at + count }) }
        ensures none { IfNone result (length (left self.old) < count) }
        ensures still { IfNone result (self.new ≡ self.old) }
    {
        if count > self.all.len() - self.at {
            return None;
        }
        let bytes = &self.all[self.at..self.at + count];
        self.at += count;
        Some(bytes)
    }

    /// The bytes read since an offset: a part of the shared bytes, or a copy.
    pub fn since(&self, alloc: Global, from: usize) -> Result<Bytes, NoMemory>
        requires { from ≤ self.now.at }
        ensures { IfOk result (λ b. b ++ left self.now ≡ drop from self.now.all) }
    {
        match self.home {
            Some(bytes) => bytes.part(from, self.at),
            None => Bytes::shared(Vec::from_slice(alloc, &self.all[from..self.at])?),
        }
    }

    /// The next two bytes as a number.
    pub fn take_u16(&mut self) -> Option<u16>
        ensures some { IfSome result (λ n. left self.old ≡ to_be_bytes w16 n ++ left self.new) }
        ensures moved { IfSome result (λ _. self.new ≡ record self.old { at = self.old.at + 2 }) }
        ensures none { IfNone result (length (left self.old) < 2) }
        ensures still { IfNone result (self.new ≡ self.old) }
    {
        let b = self.take_bytes(2)?;
        Some(u16::from_be_bytes([b[0], b[1]]))
    }

    /// The next four bytes as a number.
    pub fn take_u32(&mut self) -> Option<u32>
        ensures some { IfSome result (λ n. left self.old ≡ to_be_bytes w32 n ++ left self.new) }
        ensures moved { IfSome result (λ _. self.new ≡ record self.old { at = self.old.at + 4 }) }
        ensures none { IfNone result (length (left self.old) < 4) }
        ensures still { IfNone result (self.new ≡ self.old) }
    {
        let b = self.take_bytes(4)?;
        Some(u32::from_be_bytes([b[0], b[1], b[2], b[3]]))
    }

    /// The next eight bytes as a number.
    pub fn take_u64(&mut self) -> Option<u64>
        ensures some { IfSome result (λ n. left self.old ≡ to_be_bytes w64 n ++ left self.new) }
        ensures moved { IfSome result (λ _. self.new ≡ record self.old { at = self.old.at + 8 }) }
        ensures none { IfNone result (length (left self.old) < 8) }
        ensures still { IfNone result (self.new ≡ self.old) }
    {
        Some(number_of(self.take_bytes(8)?))
    }

    /// The next byte, or the error with its offset.
    pub fn read_u8(&mut self) -> Result<u8, DecodeError>
        ensures ok { IfOk result (λ b. IsRead byte self.old self.new b) }
        ensures bad { (at : ℕ) → result ≡ Err (DecodeError.BadField at) → IsUnreadable byte self.old at }
        ensures still { OnErr result (self.new ≡ self.old) }
        ensures enough { result ≢ Err DecodeError.NoMemory }
    {
        let missing = self.bad_field();
        match self.take_u8() {
            Some(found) => Ok(found),
            None => Err(missing),
        }
    }

    /// The next two bytes as a number, or the error with their offset.
    pub fn read_u16(&mut self) -> Result<u16, DecodeError>
        ensures ok { IfOk result (λ n. IsRead (number w16) self.old self.new n) }
        ensures bad { (at : ℕ) → result ≡ Err (DecodeError.BadField at) → IsUnreadable (number w16) self.old at }
        ensures still { OnErr result (self.new ≡ self.old) }
        ensures enough { result ≢ Err DecodeError.NoMemory }
    {
        let missing = self.bad_field();
        match self.take_u16() {
            Some(found) => Ok(found),
            None => Err(missing),
        }
    }

    /// The next four bytes as a number, or the error with their offset.
    pub fn read_u32(&mut self) -> Result<u32, DecodeError>
        ensures ok { IfOk result (λ n. IsRead (number w32) self.old self.new n) }
        ensures bad { (at : ℕ) → result ≡ Err (DecodeError.BadField at) → IsUnreadable (number w32) self.old at }
        ensures still { OnErr result (self.new ≡ self.old) }
        ensures enough { result ≢ Err DecodeError.NoMemory }
    {
        let missing = self.bad_field();
        match self.take_u32() {
            Some(found) => Ok(found),
            None => Err(missing),
        }
    }

    /// The next eight bytes as a number, or the error with their offset.
    pub fn read_u64(&mut self) -> Result<u64, DecodeError>
        ensures ok { IfOk result (λ n. IsRead (number w64) self.old self.new n) }
        ensures bad { (at : ℕ) → result ≡ Err (DecodeError.BadField at) → IsUnreadable (number w64) self.old at }
        ensures still { OnErr result (self.new ≡ self.old) }
        ensures enough { result ≢ Err DecodeError.NoMemory }
    {
        let missing = self.bad_field();
        match self.take_u64() {
            Some(found) => Ok(found),
            None => Err(missing),
        }
    }

    /// The next `len` bytes, or the error with their offset.
    pub fn read_bytes(&mut self, count: usize) -> Result<&'a [u8], DecodeError>
        ensures ok { IfOk result (λ bytes. IsRead (block count) self.old self.new bytes.now) }
        ensures bad { (at : ℕ) → result ≡ Err (DecodeError.BadField at) → IsUnreadable (block count) self.old at }
        ensures still { OnErr result (self.new ≡ self.old) }
        ensures enough { result ≢ Err DecodeError.NoMemory }
    {
        let missing = self.bad_field();
        match self.take_bytes(count) {
            Some(found) => Ok(found),
            None => Err(missing),
        }
    }

    /// The next `count` fields of 32 bytes as one slice, or the error with the offset of the first incomplete one.
    pub fn read_digests(&mut self, count: usize) -> Result<&'a [u8], DecodeError>
        requires { count < 2 ^ 32 }
        ensures ok { IfOk result (λ bytes. IsRead (digests count) self.old self.new bytes.now) }
        ensures bad { (at : ℕ) → result ≡ Err (DecodeError.BadField at) → IsUnreadable (digests count) self.old at }
        ensures still { OnErr result (self.new ≡ self.old) }
        ensures enough { result ≢ Err DecodeError.NoMemory }
    {
        let missing = self.bad_digest();
        match self.take_bytes(32 * count) {
            Some(found) => Ok(found),
            None => Err(missing),
        }
    }

    /// The next 32 bytes as a digest, or the error with their offset.
    pub fn read_digest(&mut self) -> Result<[u8; 32], DecodeError>
        ensures ok { IfOk result (λ d. IsRead (block 32) self.old self.new d) }
        ensures bad { (at : ℕ) → result ≡ Err (DecodeError.BadField at) → IsUnreadable (block 32) self.old at }
        ensures still { OnErr result (self.new ≡ self.old) }
        ensures enough { result ≢ Err DecodeError.NoMemory }
    {
        let missing = self.bad_field();
        match self.take_bytes(32) {
            Some(found) => Ok(array_of(found)),
            None => Err(missing),
        }
    }
}

// 32 bytes as an array.
fn array_of(bytes: &[u8]) -> [u8; 32]
    requires { length bytes.now ≡ 32 }
    ensures { result ≡ bytes.now }
{
    let mut digest = [0; 32];
    digest.copy_from_slice(bytes);
    digest
}

// Eight bytes as a number.
fn number_of(b: &[u8]) -> u64
    requires { length b.now ≡ 8 }
    ensures { to_be_bytes w64 result ≡ b.now }
{
    u64::from_be_bytes([b[0], b[1], b[2], b[3], b[4], b[5], b[6], b[7]])
}

/// Bytes, to which fields are appended.
#[derive(Drop)]
pub struct Writer {
    version: u8,
    out: Vec<u8>,
}

impl Model for Writer {
    ghost use Rattle.iss_request.specs.Fields.{Written};

    ghost Value = { Written };

    ghost view = { λ w. record { version = w.version; bytes = w.out.items } };
}

impl Writer {
    /// A writer without bytes, for a version.
    pub fn new(alloc: Global, version: u8) -> Writer
        ensures { result ≡ record { version = version; bytes = [] } }
    {
        Writer {
            version,
            out: Vec::new(alloc),
        }
    }

    /// The version of the formats.
    pub fn version(&self) -> u8
        ensures { result ≡ self.now.version }
    {
        self.version
    }

    /// The bytes written so far.
    pub fn as_slice(&self) -> &[u8]
        ensures { result.now ≡ self.now.bytes }
    {
        self.out.as_slice()
    }

    /// The bytes written.
    pub fn into_bytes(self) -> Bytes
        ensures { result ≡ self.bytes }
    {
        Bytes::of(self.out)
    }

    /// Appends one byte.
    pub fn put_u8(&mut self, byte: u8) -> Result<(), NoMemory>
        ensures ok { OnOk result (self.new ≡ and_bytes self.old (byte ∷ [])) }
        ensures err { OnErr result (self.new ≡ self.old) }
    {
        self.out.push(byte)?;
        Ok(())
    }

    /// Appends a number of two bytes.
    pub fn put_u16(&mut self, number: u16) -> Result<(), NoMemory>
        ensures ok { OnOk result (self.new ≡ and_bytes self.old (to_be_bytes w16 number)) }
        ensures err { OnErr result (self.new ≡ self.old) }
    {
        self.put_bytes(&number.to_be_bytes())
    }

    /// Appends a number of four bytes.
    pub fn put_u32(&mut self, number: u32) -> Result<(), NoMemory>
        ensures ok { OnOk result (self.new ≡ and_bytes self.old (to_be_bytes w32 number)) }
        ensures err { OnErr result (self.new ≡ self.old) }
    {
        self.put_bytes(&number.to_be_bytes())
    }

    /// Appends a number of eight bytes.
    pub fn put_u64(&mut self, number: u64) -> Result<(), NoMemory>
        ensures ok { OnOk result (self.new ≡ and_bytes self.old (to_be_bytes w64 number)) }
        ensures err { OnErr result (self.new ≡ self.old) }
    {
        self.put_bytes(&number.to_be_bytes())
    }

    /// Appends bytes.
    pub fn put_bytes(&mut self, bytes: &[u8]) -> Result<(), NoMemory>
        ensures ok { OnOk result (self.new ≡ and_bytes self.old bytes.now) }
        ensures err { OnErr result (self.new ≡ self.old) }
    {
        self.out.extend_from_slice(bytes)?;
        Ok(())
    }
}
