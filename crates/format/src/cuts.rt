// Cutting bytes at a separator.
ghost use Rattle.std.specs.Prelude.{◌≡◌, ◌∷◌};
ghost use Rattle.format.specs.Fields.{fields, fields_of};

use memchr::memchr;

// What stands before the first separator, and what stands behind it.
#[derive(Clone, Copy)]
pub struct Cut<'a> {
    pub first: &'a [u8],
    pub rest: Option<&'a [u8]>,
}

// Inlined: most fields are short, and a call takes longer than they do.
#[inline(always)]
pub fn cut_at<'a>(bytes: &'a [u8], separator: u8) -> Cut<'a>
    ensures { fields separator bytes.now ≡ result.first.now ∷ fields_of separator result.rest }
{
    match memchr(separator, bytes) {
        Some(end) => {
            let (first, rest) = bytes.split_at(end);
            Cut {
                first,
                rest: Some(&rest[1..]),
            }
        }
        None => Cut {
            first: bytes,
            rest: None,
        },
    }
}
