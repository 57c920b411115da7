// What stands on a line: a kind's name, a tab, and a value as it is written.
ghost use Rattle.std.specs.Prelude.{◌≡◌, length, Decides};
ghost use Rattle.value.specs.Values.{Meaning, text_of, size};
ghost use Rattle.lines.specs.Spelled.{Valued};
ghost use Rattle.lines.specs.Parts.{Parts, WrittenOn, TellsText, Tells};

use fault::Fault;
use format::cuts::cut_at;
use format::hexadecimal::read_pairs;
use format::names::kind_named;
use format::values::read_value;
use text::Span;
use value::{Kind, Value};

#[derive(Clone, Copy)]
pub struct Line<'a> {
    pub kind: Kind,
    pub written: &'a [u8],
}

// A line by its first tab.
pub(crate) fn parted(line: &[u8]) -> Option<Line>
    ensures { Parts line.now result }
{
    let cut = cut_at(line, b'\t');
    let written = cut.rest?;
    let kind = kind_named(cut.first)?;
    Some(Line { kind, written })
}

// Whether the line spells a value. A text is read into the room, which is as long as the longest.
pub(crate) fn is_valued(line: &[u8], room: &mut [u8; 65536]) -> bool
    ensures { Decides result (Valued line.now) }
{
    match parted(line) {
        Some(parts) => read_value(parts.kind, parts.written, room).is_some(),
        None => false,
    }
}

// Writes the text that the pairs of digits spell: at the place and no other byte, or not at all where it would pass the end.
fn tell_text(written: &[u8], buffer: &mut [u8], place: usize) -> Result<Span, Fault>
    ensures { TellsText written.now buffer.old place result buffer.new }
{
    let len = written.len() / 2;
    if place > buffer.len() || len > buffer.len() - place {
        return Err(Fault::BufferShort);
    }
    let _ = read_pairs(written, &mut buffer[place..place + len]);
    Ok(Span { start: place, len })
}

impl Line<'_> {
    // How many bytes of text the value has: two digits stand for each.
    pub(crate) fn text_len(self) -> usize
        ensures { (m : Meaning) → WrittenOn self.entry m → result ≡ size (text_of m) }
    {
        match self.kind {
            Kind::Str | Kind::Blob => self.written.len() / 2,
            _ => 0,
        }
    }

    // Puts the value into the buffer: its text at the place and no other byte.
    pub(crate) fn tell(self, buffer: &mut [u8], place: usize) -> Result<Value<Span>, Fault>
        requires { (m : Meaning) × WrittenOn self m }
        ensures { Tells self.entry buffer.old place result buffer.new }
    {
        match self.kind {
            Kind::Str => tell_text(self.written, buffer, place).map(Value::Str),
            Kind::Blob => tell_text(self.written, buffer, place).map(Value::Blob),
            kind => {
                // a char's bytes come here, which are no text
                let mut four = [0u8; 4];
                Ok(read_value(kind, self.written, &mut four).unwrap())
            }
        }
    }
}
