//! Bit strings that borrow the bytes of a line, and lists of keys in strictly rising order.
#![tactic(auto)]

mod fault;
mod keys;
mod packing;
mod pieces;
mod view;
mod words;

pub use fault::KeyFault;
pub use keys::KeyList;
pub use pieces::Piece;
pub use sx_spec::Limits;
pub use view::BitView;

#[cfg(test)]
mod tests;
