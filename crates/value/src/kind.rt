// The nine kinds of values.
ghost use Rattle.std.specs.Prelude.{◌≡◌};
ghost use Rattle.std.specs.Option.{ok_or};
ghost use Rattle.std.specs.List.{slice_get};
ghost use Rattle.fault.specs.declared.Fault.TheVariants.{Unknown};
ghost use Rattle.value.specs.Kinds.{kind_number, kinds};

use fault::Fault;

#[derive(Clone, Copy, PartialEq, Eq, Debug)]
pub enum Kind {
    Unit,
    Bool,
    Int,
    Float,
    Char,
    Str,
    Blob,
    Excl,
    Incl,
}

pub const KINDS: [Kind; 9] = [
    Kind::Unit,
    Kind::Bool,
    Kind::Int,
    Kind::Float,
    Kind::Char,
    Kind::Str,
    Kind::Blob,
    Kind::Excl,
    Kind::Incl,
];

// The same two impls as an operator has: std's traits ask for them of each type.
impl From<Kind> for u8 {
    ghost from_gives = { λ k n. n ≡ kind_number k };

    fn from(kind: Kind) -> u8 {
        kind as u8
    }
}

// The kind of a number, or a refusal where there is none.
impl TryFrom<u8> for Kind {
    type Error = Fault;

    ghost try_from_gives = { λ n r. r ≡ ok_or (slice_get kinds n) Unknown };

    fn try_from(number: u8) -> Result<Kind, Fault> {
        KINDS.get(number as usize).copied().ok_or(Fault::Unknown)
    }
}
