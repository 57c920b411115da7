// A set of kinds, as a bit for each.
ghost use Rattle.std.specs.Prelude.{◌≡◌};
ghost use Rattle.value.specs.Kinds.{single, has, united};

use crate::kind::Kind;

#[derive(Clone, Copy, Default, PartialEq, Eq, Debug)]
pub struct KindSet {
    pub bits: u16,
}

impl KindSet {
    pub fn single(kind: Kind) -> KindSet
        ensures { result ≡ single kind }
    {
        KindSet {
            bits: 1 << u8::from(kind),
        }
    }

    pub fn has(self, kind: Kind) -> bool
        ensures { result ≡ has self kind }
    {
        (self.bits >> u8::from(kind)) % 2 == 1
    }

    pub fn union(self, other: KindSet) -> KindSet
        ensures { result ≡ united self other }
    {
        KindSet {
            bits: self.bits | other.bits,
        }
    }
}
