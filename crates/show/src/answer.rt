// What a line is answered.
ghost use Rattle.std.specs.Prelude.{◌≡◌, Some};
ghost use Rattle.show.specs.Shown.{shown_answer};

use crate::values::Shown;
use fault::Refusal;
use std::fmt;

// A value, where there is one to print, or a refusal.
#[derive(Clone, Copy)]
pub struct Answer<'a>(pub Result<Option<Shown<'a>>, Refusal>);

impl fmt::Display for Answer<'_> {
    ghost output = { λ a. Some (shown_answer a) };

    fn fmt<W: fmt::Write>(&self, f: &mut fmt::Formatter<W>) -> fmt::Result {
        match self.0 {
            Ok(None) => f.write_str("ok"),
            Ok(Some(value)) => write!(f, "{value}"),
            Err(refusal) => write!(f, "no\t{}\t{}", u8::from(refusal.fault), refusal.place),
        }
    }
}
