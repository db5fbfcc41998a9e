//! Chess positions and moves as text: Forsyth-Edwards Notation (FEN) and Standard Algebraic Notation (SAN).
#![tactic(auto)]

mod fault;
mod fen;
mod fields;
mod letters;
mod ones;
mod placement;
mod san_laws;
mod san_parts;
mod san_playing;
mod san_reading;
mod san_shape;
mod san_writing;
mod shape;
mod squares;
mod writing;

pub use fault::{FenFault, SanFault};
pub use fen::read_fen;
pub use placement::read_board;
pub use san_laws::{moves_have_one_text, texts_have_one_shape};
pub use san_playing::advance_san;
pub use san_reading::read_san;
pub use san_writing::{play_san, write_san};
pub use writing::write_fen;
