// Reading a part of a buffer, and writing a text at a place of it.
ghost use Rattle.std.specs.Prelude.{◌≡◌, ◌+◌, ◌≤◌, length};
ghost use Rattle.text.specs.Buffers.{span_text, within, laid, stored};

use crate::span::Span;
use fault::Fault;

pub fn part(buffer: &[u8], span: Span) -> &[u8]
    requires { within span (length buffer.now) }
    ensures { result.now ≡ span_text buffer.now span }
{
    let start = span.start;
    let end = start + span.len;
    &buffer[start..end]
}

// Copies the text, which has room.
pub fn copy_in(buffer: &mut [u8], place: usize, text: &[u8])
    requires { place + length text.now ≤ length buffer.old }
    ensures { buffer.new ≡ laid buffer.old place text.now }
{
    buffer[place..place + text.len()].copy_from_slice(text);
}

// Copies a part of the buffer to a place of it that has room.
pub(crate) fn copy_up(buffer: &mut [u8], place: usize, span: Span)
    requires { (within span (length buffer.old)) × (place + span.len ≤ length buffer.old) }
    ensures { buffer.new ≡ laid buffer.old place (span_text buffer.old span) }
{
    buffer.copy_within(span.start..span.start + span.len, place);
}

// Writes the text at the place, or refuses where it would pass the buffer's end.
pub fn write_text(buffer: &mut [u8], place: usize, text: &[u8]) -> Result<Span, Fault>
    ensures answer { result ≡ (stored buffer.old place text.now).answer }
    ensures bytes { buffer.new ≡ (stored buffer.old place text.now).bytes }
{
    if place > buffer.len() || text.len() > buffer.len() - place {
        return Err(Fault::BufferShort);
    }
    copy_in(buffer, place, text);
    Ok(Span {
        start: place,
        len: text.len(),
    })
}
