// Lines of bytes, one after another.
ghost use Rattle.std.specs.Prelude.{◌≡◌, length, option_map, slice_get};
ghost use Rattle.lines.specs.Spelled.{lines};
ghost use Rattle.lines.specs.Fronts.{lines_of};

use format::cuts::cut_at;

// The first line, and what stands behind it.
#[derive(Clone, Copy)]
pub struct Front<'a> {
    pub line: &'a [u8],
    pub behind: &'a [u8],
}

pub(crate) fn cut_line(bytes: &[u8]) -> Option<Front>
    ensures { lines bytes.now ≡ lines_of result }
{
    if bytes.is_empty() {
        return None;
    }
    let cut = cut_at(bytes, b'\n');
    Some(Front {
        line: cut.first,
        behind: cut.rest.unwrap_or(b""),
    })
}

pub(crate) fn count_lines(bytes: &[u8]) -> usize
    ensures { result ≡ length (lines bytes.now) }
{
    let mut count = 0;
    let mut rest = bytes;
    while let Some(front) = cut_line(rest) {
        count += 1;
        rest = front.behind;
    }
    count
}

// The line with the number, from 0.
pub(crate) fn line_at(bytes: &[u8], number: usize) -> Option<&[u8]>
    ensures { option_map (λ l. l.now) result ≡ slice_get (lines bytes.now) number }
{
    let mut rest = bytes;
    for _ in 0..number {
        rest = cut_line(rest)?.behind;
    }
    Some(cut_line(rest)?.line)
}
