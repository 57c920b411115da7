// Whether a slot takes postings.

#[derive(Clone, Copy, PartialEq, Eq, Debug)]
pub enum Mark {
    Open,
    Sealed,
}
