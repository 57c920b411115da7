// Texts as operands: their order, their bytes, and new texts made of two of them.
ghost use Rattle.std.specs.Prelude.{◌≡◌, ℕ, true, ◌≤◌, List, ◌++◌, length, IfOk, Ok};
ghost use Rattle.std.specs.Str.{bytes_eq};
ghost use Rattle.fault.specs.Refusals.{bind};
ghost use Rattle.text.specs.Pieces.{text_bytes, piece_bytes, TextBelow, Below};
ghost use Rattle.text.specs.Scalars.{utf8, by_scalars};
ghost use Rattle.value.specs.Values.{meaning, text_in};
ghost use Rattle.routines.specs.Calls.{as_bytes, as_blob, as_scalars, of, fresh, typed};
ghost use Rattle.routines.specs.Outcomes.{operand, Ready, TextReady, Settles, Pieced};
ghost use Rattle.routines.specs.Works.{Kept};

use crate::made::{Made, Operand, TextKind};
use crate::work::Work;
use fault::Fault;
use order::{Comparing, Order};
use std::str::from_utf8_unchecked;
use text::{Piece, Text, compare_char_text, compare_text_char, compare_texts, join, text_bytes};
use value::Value;

// The text of a str, which is UTF-8.
fn text_str<'a>(work: &'a [u8], text: Text<'a>) -> &'a str
    requires below { TextBelow (length work.now) text }
    requires utf8 { utf8 (text_bytes work.now text) ≡ true }
    ensures { result.now ≡ text_bytes work.now text.entry }
{
    unsafe { from_utf8_unchecked(text_bytes(work, text)) }
}

// The order of two texts, each a char or a str.
pub(crate) fn order_letters(work: &[u8], a: Operand, b: Operand) -> Result<Order, Fault>
    requires left { Ready work.now (length work.now) a }
    requires right { Ready work.now (length work.now) b }
    ensures { result ≡ of as_scalars (operand work.now a.entry) (operand work.now b.entry) (λ x y. Ok (by_scalars x y)) }
{
    match (a, b) {
        (Value::Char(c), Value::Char(d)) => Ok(c.compare(&d)),
        (Value::Str(s), Value::Str(t)) => Ok(compare_texts(text_str(work, s), text_str(work, t))),
        (Value::Char(c), Value::Str(t)) => Ok(compare_char_text(c, text_str(work, t))),
        (Value::Str(s), Value::Char(d)) => Ok(compare_text_char(text_str(work, s), d)),
        _ => Err(Fault::NoRow),
    }
}

pub(crate) fn equal_blobs(work: &[u8], a: Operand, b: Operand) -> Result<bool, Fault>
    requires left { Ready work.now (length work.now) a }
    requires right { Ready work.now (length work.now) b }
    ensures { result ≡ of as_blob (operand work.now a.entry) (operand work.now b.entry) (λ x y. Ok (bytes_eq x y)) }
{
    match (a, b) {
        (Value::Blob(s), Value::Blob(t)) => Ok(text_bytes(work, s) == text_bytes(work, t)),
        _ => Err(Fault::NoRow),
    }
}

// What an operand brings to a text.
fn as_piece<'a>(v: Operand<'a>) -> Result<Piece<'a>, Fault>
    ensures bytes { (work : List ℕ) → bind result (λ p. Ok (piece_bytes work p)) ≡ as_bytes (operand work v.entry) }
    ensures below { (fill : ℕ) → TextReady fill (text_in v.entry) → IfOk result (Below fill) }
{
    match v {
        Value::Str(t) | Value::Blob(t) => Ok(Piece::Whole(t)),
        Value::Char(c) => Ok(Piece::Letter(c)),
        Value::Int(n) => Ok(Piece::Byte((n & 0xff) as u8)),
        _ => Err(Fault::NoRow),
    }
}

pub(crate) fn as_pieces<'a>(a: Operand<'a>, b: Operand<'a>) -> Result<(Piece<'a>, Piece<'a>), Fault>
    ensures { (work : List ℕ) (fill : ℕ) → Ready work fill a.entry → Ready work fill b.entry → Pieced work fill a.entry b.entry result }
{
    Ok((as_piece(a)?, as_piece(b)?))
}

// A new text of two pieces, behind the others in the work buffer.
pub(crate) fn new_text(kind: TextKind, work: &mut Work, p: Piece, q: Piece) -> Result<Made, Fault>
    requires left { Below work.old.fill p }
    requires right { Below work.old.fill q }
    ensures settles { Settles work.old.bytes.now work.old.fill (Ok (fresh (typed kind (piece_bytes work.old.bytes.now p.entry ++ piece_bytes work.old.bytes.now q.entry)))) result work.new.bytes.now work.new.fill }
    ensures kept { Kept work.old work.new }
{
    let span = join(work.bytes, work.fill, p, q)?;
    work.fill += span.len;
    Ok(Made::New(kind.value(span)))
}
