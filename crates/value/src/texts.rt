// Values with their texts: tested, lent from a buffer, and put into one.
ghost use Rattle.std.specs.Prelude.{◌≡◌, length};
ghost use Rattle.text.specs.Pieces.{text_bytes};
ghost use Rattle.value.specs.Values.{meaning, meant, well_formed, told_at, text_in, Inside};

use crate::value::Value;
use fault::Fault;
use text::{Span, Text, is_utf8, part, write_text};

// The most bytes that a text has.
pub const MOST_BYTES: usize = 65536;

// A str is UTF-8, and no text is over 65,536 bytes.
pub fn is_well_formed(value: Value<&[u8]>) -> bool
    ensures { result ≡ well_formed (meaning (λ x. x.now) value.entry) }
{
    match value {
        Value::Str(t) => is_utf8(t) && t.len() <= MOST_BYTES,
        Value::Blob(t) => t.len() <= MOST_BYTES,
        _ => true,
    }
}

// The value with its text read in the buffer that holds it.
pub fn lend(value: Value<Span>, buffer: &[u8]) -> Value<&[u8]>
    requires { Inside (length buffer.now) (text_in value) }
    ensures { meaning (λ x. x.now) result ≡ meant buffer.now value }
{
    value.map(|span| part(buffer, span))
}

// Puts the value into the buffer: its text at the place and no other byte. (The span is made before the map: of a closure that
// writes, a caller would not know what it wrote.)
pub fn store(buffer: &mut [u8], place: usize, value: Value<&[u8]>) -> Result<Value<Span>, Fault>
    ensures answer { result ≡ (told_at buffer.old place (meaning (λ x. x.now) value.entry)).answer }
    ensures bytes { buffer.new ≡ (told_at buffer.old place (meaning (λ x. x.now) value.entry)).bytes }
{
    let span = match value.text() {
        Some(text) => write_text(buffer, place, text)?,
        None => Span::default(),
    };
    Ok(value.map(|_| span))
}
