// Values of each kind.
ghost use Rattle.std.specs.Prelude.{◌≡◌, true};
ghost use Rattle.std.proofs.Math.Utf8.{encode, scalar};
ghost use Rattle.format.specs.Reading.{Reads, ReadsAs, Number, ReadsEnds, ReadsEndsAs, ReadsText, ReadsValue, ReadsValueAs};
ghost use Rattle.format.specs.Written.{floated};

use crate::cuts::cut_at;
use crate::hexadecimal::{read_bits, read_pairs};
use crate::numbers::read_int;
use std::str::from_utf8;
use text::{Span, is_utf8, part};
use value::{Kind, Range, Value};

// No NaN.
pub fn read_float(bytes: &[u8]) -> Option<f64>
    ensures reads { Reads Number floated bytes.now result }
    ensures exact { ReadsAs Number floated bytes.now result }
{
    let bits = read_bits(bytes)?;
    if bits % 0x8000_0000_0000_0000 > 0x7ff0_0000_0000_0000 {
        return None;
    }
    Some(f64::from_bits(bits))
}

// The char that the bytes are the UTF-8 of.
pub fn read_char(bytes: &[u8]) -> Option<char>
    ensures reads { Reads (λ c. scalar c ≡ true) encode bytes.now result }
    ensures exact { ReadsAs (λ c. scalar c ≡ true) encode bytes.now result }
{
    let c = from_utf8(bytes).ok()?.chars().next()?;
    (c.len_utf8() == bytes.len()).then_some(c)
}

// Two ends with a comma between.
pub fn read_range(bytes: &[u8]) -> Option<Range>
    ensures reads { ReadsEnds bytes.now result }
    ensures exact { ReadsEndsAs bytes.now result }
{
    let ends = cut_at(bytes, b',');
    let rest = ends.rest?;
    let from = read_int(ends.first)?;
    let to = read_int(rest)?;
    Some(Range { from, to })
}

// The text that the pairs of digits spell, in the front of the buffer.
fn read_text(bytes: &[u8], buffer: &mut [u8]) -> Option<Span>
    ensures { ReadsText bytes.now buffer.new result }
{
    let len = read_pairs(bytes, buffer)?;
    Some(Span { start: 0, len })
}

// A value of the kind, with its text in the front of the buffer.
pub fn read_value(kind: Kind, bytes: &[u8], buffer: &mut [u8]) -> Option<Value<Span>>
    ensures reads { ReadsValue kind bytes.now buffer.new result }
    ensures exact { ReadsValueAs kind bytes.now buffer.new result }
{
    match kind {
        Kind::Unit => bytes.is_empty().then_some(Value::Unit),
        Kind::Bool => match bytes {
            b"true" => Some(Value::Bool(true)),
            b"false" => Some(Value::Bool(false)),
            _ => None,
        },
        Kind::Int => read_int(bytes).map(Value::Int),
        Kind::Float => read_float(bytes).map(Value::Float),
        Kind::Char => {
            let span = read_text(bytes, buffer)?;
            read_char(part(buffer, span)).map(Value::Char)
        }
        Kind::Str => {
            let span = read_text(bytes, buffer)?;
            is_utf8(part(buffer, span)).then_some(Value::Str(span))
        }
        Kind::Blob => read_text(bytes, buffer).map(Value::Blob),
        Kind::Excl => read_range(bytes).map(Value::Excl),
        Kind::Incl => read_range(bytes).map(Value::Incl),
    }
}
