// Lists of functions, as words give them: the pieces of a list, and the functions of a module that lists choose.
#![tactic(auto)]

mod choice;
mod mark;
mod piece;

pub use crate::choice::{choose, first_unknown};
pub use crate::piece::{Piece, is_list, read_piece};
