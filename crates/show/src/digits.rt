// Hexadecimal digits, printed.
ghost use Rattle.std.specs.Prelude.{◌≡◌, ◌/◌, ◌%◌, ◌<◌, [], ◌∷◌, Some};
ghost use Rattle.format.specs.Written.{figure, pairs};

use std::fmt;
use std::str::from_utf8_unchecked;

fn figure(d: u8) -> u8
    requires { d < 16 }
    ensures { result ≡ figure d }
{
    if d < 10 { b'0' + d } else { 87 + d }
}

fn pair(b: u8) -> [u8; 2]
    ensures { result ≡ figure (b / 16) ∷ figure (b % 16) ∷ [] }
{
    [figure(b / 16), figure(b % 16)]
}

// The two digits of each byte.
#[derive(Clone, Copy)]
pub struct Pairs<'a>(pub &'a [u8]);

impl fmt::Display for Pairs<'_> {
    ghost output = { λ p. Some (pairs p.0.now) };

    // By hand, with one write for a byte: `{:02x}` takes four times as long, and most of an answer can be a text.
    fn fmt<W: fmt::Write>(&self, f: &mut fmt::Formatter<W>) -> fmt::Result {
        for &b in self.0 {
            let digits = pair(b);
            f.write_str(unsafe { from_utf8_unchecked(&digits) })?;
        }
        Ok(())
    }
}
