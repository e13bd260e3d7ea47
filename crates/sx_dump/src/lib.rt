//! Dumps in banks of words: opened, asked, and shown as text.
#![tactic(auto)]

mod bare;
mod dump;
mod open;
mod rooms;
mod show;
mod sums;
mod view;

pub use bare::holds_directories;
pub use dump::Dump;
pub use open::{OpenFault, open_dump};
pub use rooms::TrieRooms;
pub use sx_ranksel::directories::Directories;
pub use sx_sections::fault::MAX_BYTES;
pub use view::longest_extent;
