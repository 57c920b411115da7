// A value with its kind, printed.
ghost use Rattle.std.specs.Prelude.{◌≡◌, Some};
ghost use Rattle.value.specs.Values.{meaning};
ghost use Rattle.show.specs.Shown.{shown_value};

use crate::digits::Pairs;
use std::fmt;
use std::num::f64_to_bits_with_nan;
use value::Value;

#[derive(Clone, Copy)]
pub struct Shown<'a>(pub Value<&'a [u8]>);

impl fmt::Display for Shown<'_> {
    ghost output = { λ v. Some (shown_value (meaning (λ x. x.now) v.0)) };

    // The name of a kind is a part of what is written at once with the value: where it is one of `Named`, a writer without a buffer
    // writes a unit half as long again.
    fn fmt<W: fmt::Write>(&self, f: &mut fmt::Formatter<W>) -> fmt::Result {
        match self.0 {
            Value::Unit => f.write_str("unit\t"),
            Value::Bool(b) => write!(f, "bool\t{b}"),
            Value::Int(n) => write!(f, "int\t{n}"),
            Value::Float(x) => {
                f.write_str("float\t")?;
                write!(f, "{:016x}", f64_to_bits_with_nan(x))
            }
            Value::Char(c) => {
                let mut buffer = [0; 4];
                write!(f, "char\t{}", Pairs(c.encode_utf8(&mut buffer).as_bytes()))
            }
            Value::Str(text) => write!(f, "str\t{}", Pairs(text)),
            Value::Blob(text) => write!(f, "blob\t{}", Pairs(text)),
            Value::Excl(r) => write!(f, "excl\t{},{}", r.from, r.to),
            Value::Incl(r) => write!(f, "incl\t{},{}", r.from, r.to),
        }
    }
}
