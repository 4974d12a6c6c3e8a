//! Asks and pieces in bytes: the bodies of packets that name the epoch.
ghost use Rattle.std.specs.Prelude.{◌≡◌, ◌≢◌, ◌<◌, ℕ, [], length, IfOk, OnOk, Err};
ghost use Rattle.std.specs.List.{flat_map};
ghost use Rattle.iss_request.specs.Fields.{Bad, Good, IsRead, IsUnreadable, and_bytes};
ghost use Rattle.iss_request.specs.Formats.{parse_value, spell_value};
ghost use Rattle.iss_request.specs.Parsing.{all_of, times};
ghost use Rattle.iss_transfer.specs.Bodies.{fits, parse_ask, parse_piece, piece_row, spell_ask, spell_piece};

use crate::pieces::{Ask, Piece};
use iss_checkpoint::{read_cert, write_cert};
use iss_request::{
    Bytes, DecodeError, Epoch, Fields, NoMemory, Seq, Value, Writer, read_value, write_value,
};
use std::alloc::Global;

// Written for a piece without an encoding: one value, which is neither nil nor a batch.
const NO_PIECE: [u8; 2] = [1, 3];

// Whether the piece has an encoding: it is of its certificate's epoch, and the number of its values fits one byte.
fn has_spelling(piece: &Piece) -> bool
    ensures { result ≡ fits piece.now }
{
    piece.cert.epoch.0 == piece.epoch.0 && piece.values.len() < 256
}

fn put_values(values: &[Value], out: &mut Writer) -> Result<(), NoMemory>
    ensures { OnOk result (out.new ≡ and_bytes out.old (flat_map (spell_value out.old.version) values.now)) }
{
    for value in values {
        write_value(value, out)?;
    }
    Ok(())
}

fn put_row(piece: &Piece, out: &mut Writer) -> Result<(), NoMemory>
    requires { length piece.now.values < 256 }
    ensures { OnOk result (out.new ≡ and_bytes out.old (piece_row out.old.version piece.now)) }
{
    out.put_u8(piece.values.len() as u8)?;
    put_values(piece.values.as_slice(), out)?;
    write_cert(&piece.cert, out)
}

/// Appends a piece's encoding. One without an encoding is written as bytes that no reader accepts.
pub fn write_piece(piece: &Piece, out: &mut Writer) -> Result<(), NoMemory>
    ensures { OnOk result (out.new ≡ and_bytes out.old (spell_piece out.old.version piece.now)) }
{
    if !has_spelling(piece) {
        return out.put_bytes(&NO_PIECE);
    }
    put_row(piece, out)
}

fn read_values(alloc: Global, count: u8, f: &mut Fields) -> Result<Seq<Value>, DecodeError>
    ensures ok { IfOk result (λ vs. IsRead (times count (parse_value f.old.version)) f.old f.new vs) }
    ensures bad { (at : ℕ) → result ≡ Err (DecodeError.BadField at) →
        IsUnreadable (times count (parse_value f.old.version)) f.old at }
{
    let mut values = Seq::new(alloc);
    for _ in 0..count {
        let value = read_value(alloc, f)?;
        values.push(value)?;
    }
    Ok(values)
}

/// Decodes a piece of an epoch. `BadField` names the first field that does not fit.
pub fn read_piece(alloc: Global, epoch: Epoch, f: &mut Fields) -> Result<Piece, DecodeError>
    ensures ok { IfOk result (λ p. IsRead (parse_piece f.old.version epoch.0) f.old f.new p) }
    ensures bad { (at : ℕ) → result ≡ Err (DecodeError.BadField at) →
        IsUnreadable (parse_piece f.old.version epoch.0) f.old at }
{
    let count = f.read_u8()?;
    let values = read_values(alloc, count, f)?;
    let cert = read_cert(alloc, epoch, f)?;
    Ok(Piece {
        epoch,
        values,
        cert,
    })
}

/// The encoding of an ask: no bytes. It needs no memory.
pub fn encode_ask(alloc: Global, ask: &Ask) -> Bytes
    ensures { result ≡ spell_ask ask.now }
{
    let _epoch = ask.epoch;
    Bytes::new(alloc)
}

/// Decodes an ask. Only the empty body is one; otherwise `BadField` names the first byte. It needs no memory.
// rule: Transfer: An ask has an empty body
pub fn decode_ask(epoch: Epoch, bytes: &[u8]) -> Result<Ask, DecodeError>
    ensures ok { IfOk result (λ a. parse_ask epoch.0 bytes.now ≡ Good a []) }
    ensures bad { (at : ℕ) → result ≡ Err (DecodeError.BadField at) → all_of (parse_ask epoch.0) bytes.now ≡ Bad at }
    ensures enough { result ≢ Err DecodeError.NoMemory }
{
    if !bytes.is_empty() {
        return Err(DecodeError::BadField { at: 0 });
    }
    Ok(Ask { epoch })
}

/// The encoding of a piece. A piece without one gives bytes that decode to no piece. The only error is out of memory.
// rule: Transfer: A piece has one encoding a version: count, values, and the certificate of its epoch
pub fn encode_piece(alloc: Global, version: u8, piece: &Piece) -> Result<Bytes, NoMemory>
    ensures { IfOk result (λ bytes. bytes ≡ spell_piece version piece.now) }
{
    let mut out = Writer::new(alloc, version);
    write_piece(piece, &mut out)?;
    Ok(out.into_bytes())
}

/// Decodes a piece of an epoch, which must take up all of the bytes. `BadField` gives the offset of the first field
/// that does not fit, or of the first byte after the piece.
pub fn decode_piece(
    alloc: Global,
    version: u8,
    epoch: Epoch,
    bytes: &[u8],
) -> Result<Piece, DecodeError>
    ensures ok { IfOk result (λ p. parse_piece version epoch.0 bytes.now ≡ Good p []) }
    ensures bad { (at : ℕ) → result ≡ Err (DecodeError.BadField at) →
        all_of (parse_piece version epoch.0) bytes.now ≡ Bad at }
{
    let mut f = Fields::over(version, bytes);
    let piece = read_piece(alloc, epoch, &mut f)?;
    if !f.is_done() {
        return Err(f.bad_field());
    }
    Ok(piece)
}
