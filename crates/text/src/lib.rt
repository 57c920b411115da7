// Texts as bytes in buffers: parts of a buffer, writing one text behind another, UTF-8, and the order of texts.
#![tactic(auto)]

pub mod buffer;
pub mod letters;
pub mod piece;
pub mod span;

pub use buffer::{copy_in, part, write_text};
pub use letters::{
    compare_char_text, compare_text_char, compare_texts, get_s1s2, is_utf8, letters_stand,
};
pub use piece::{Piece, Text, join, piece_len, text_bytes};
pub use span::Span;
