// What a new text is made of, and the joining of two pieces into one text.
ghost use Rattle.std.specs.Prelude.{◌≡◌, ◌+◌, ◌≤◌, ◌++◌, length};
ghost use Rattle.text.specs.Buffers.{laid, stored};
ghost use Rattle.text.specs.Pieces.{text_bytes, piece_bytes, TextBelow, Below};

use crate::buffer::{copy_in, copy_up, part};
use crate::span::Span;
use fault::Fault;

// The bytes of a text: a part of the work buffer, or lent by the caller.
#[derive(Clone, Copy)]
pub enum Text<'a> {
    Part(Span),
    Lent(&'a [u8]),
}

// That a piece lies in the buffer stays a clause: a piece does not hold it, and the same call writes it.
#[derive(Clone, Copy)]
pub enum Piece<'a> {
    Whole(Text<'a>),
    Letter(char),
    Byte(u8),
}

// The bytes of a text.
pub fn text_bytes<'a>(work: &'a [u8], text: Text<'a>) -> &'a [u8]
    requires { TextBelow (length work.now) text }
    ensures { result.now ≡ text_bytes work.now text.entry }
{
    match text {
        Text::Part(span) => part(work, span),
        Text::Lent(bytes) => bytes,
    }
}

// How many bytes a piece has.
pub fn piece_len(work: &[u8], piece: Piece) -> usize
    requires { Below (length work.now) piece }
    ensures { result ≡ length (piece_bytes work.now piece.entry) }
{
    match piece {
        Piece::Whole(Text::Part(s)) => s.len,
        Piece::Whole(Text::Lent(t)) => t.len(),
        Piece::Letter(c) => c.len_utf8(),
        Piece::Byte(_) => 1,
    }
}

fn lay(work: &mut [u8], fill: usize, piece: Piece)
    requires below { Below (length work.old) piece }
    requires fits { fill + length (piece_bytes work.old piece) ≤ length work.old }
    ensures { work.new ≡ laid work.old fill (piece_bytes work.old piece.entry) }
{
    match piece {
        Piece::Whole(Text::Part(s)) => copy_up(work, fill, s),
        Piece::Whole(Text::Lent(t)) => copy_in(work, fill, t),
        Piece::Letter(c) => {
            let mut four = [0u8; 4];
            let text = c.encode_utf8(&mut four);
            copy_in(work, fill, text.as_bytes());
        }
        Piece::Byte(b) => copy_in(work, fill, &[b]),
    }
}

// Writes p and q behind each other at `fill`, above which neither lies, or refuses where they would pass the end. (Buffer and place stay
// two: a struct of them would be made for the one call that there is.)
pub fn join(work: &mut [u8], fill: usize, p: Piece, q: Piece) -> Result<Span, Fault>
    requires left { Below fill p }
    requires right { Below fill q }
    requires inside { fill ≤ length work.old }
    ensures answer { result ≡ (stored work.old fill (piece_bytes work.old p.entry ++ piece_bytes work.old q.entry)).answer }
    ensures bytes { work.new ≡ (stored work.old fill (piece_bytes work.old p.entry ++ piece_bytes work.old q.entry)).bytes }
{
    let m = piece_len(work, p);
    let n = piece_len(work, q);
    if m > work.len() - fill || n > work.len() - fill - m {
        return Err(Fault::BufferShort);
    }
    lay(work, fill, p);
    lay(work, fill + m, q);
    Ok(Span {
        start: fill,
        len: m + n,
    })
}
