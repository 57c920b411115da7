// A part of a buffer, by its first byte and its length. (The library's range is no Copy.)

#[derive(Clone, Copy, Default, PartialEq, Eq, Debug)]
pub struct Span {
    pub start: usize,
    pub len: usize,
}
