//! What a call comes to, as a number for C.

/// The call did what it is for.
pub const DONE: u8 = 0;

/// The line is longer than 8,191 bytes.
pub const TOO_LONG: u8 = 1;

/// There are not as many words, places for replies, values or seeds as there have to be.
pub const BAD_COUNT: u8 = 2;

/// The dump knows no number for the line.
pub const NO_NUMBER: u8 = 3;

/// The words are no dump, or the handle isn't open.
pub const NO_DUMP: u8 = 4;

/// A key breaks a rule.
pub const BAD_KEY: u8 = 6;

/// What is asked for is no plan of a build.
pub const BAD_PLAN: u8 = 7;

/// No seed works.
pub const NO_SEED: u8 = 8;

/// There are fewer words of room than are put there.
pub const NO_ROOM: u8 = 9;

/// Memory is wanting.
pub const NO_MEMORY: u8 = 10;

/// The kind that a handle tells which isn't open.
pub const NO_KIND: u8 = 255;
