//! The codes of commands, as an image records them.

/// `New`.
pub const NEW: u8 = 1;

/// `Open`.
pub const OPEN: u8 = 2;

/// `Insert`.
pub const INSERT: u8 = 3;

/// `Delete`.
pub const DELETE: u8 = 4;

/// `Replace`.
pub const REPLACE: u8 = 5;

/// `Paste`.
pub const PASTE: u8 = 6;

/// `Join`.
pub const JOIN: u8 = 7;

/// `Cut`.
pub const CUT: u8 = 8;

/// `Fill`.
pub const FILL: u8 = 9;

/// `Back`.
pub const BACK: u8 = 10;

/// `Balance`.
pub const BALANCE: u8 = 11;

/// `Many`.
pub const MANY: u8 = 12;
