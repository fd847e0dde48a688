//! The firmware of the lightbulb: a UDP frame sets one pin.
#![tactic(auto)]

mod firmware;
mod laws;
mod text;

pub use firmware::program;
pub use laws::{
    boot_shows_piece, bytes_show_pieces, firmware_stays_good, frames_show_pieces, poll_shows_piece,
    text_stands_for_trees, words_show_pieces,
};
pub use text::TEXT;
