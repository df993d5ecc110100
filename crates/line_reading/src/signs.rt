//! The signs of lines, by their places in the list of signs.

/// `...`.
pub const DOTS: u8 = 0;
/// `%next`.
pub const NEXT: u8 = 4;
/// `%pc`.
pub const PC: u8 = 5;
/// `:=`.
pub const BECOMES: u8 = 6;
/// `!=`.
pub const DIFFERS: u8 = 7;
/// `=>`.
pub const GUARDS: u8 = 8;
/// `(`.
pub const OPEN_PAREN: u8 = 15;
/// `)`.
pub const CLOSE_PAREN: u8 = 16;
/// `[`.
pub const OPEN_BRACKET: u8 = 17;
/// `]`.
pub const CLOSE_BRACKET: u8 = 18;
/// `,`.
pub const COMMA: u8 = 19;
/// `;`.
pub const SEMICOLON: u8 = 20;
/// `:`.
pub const COLON: u8 = 21;
/// `=`.
pub const EQUALS: u8 = 22;
/// `&`.
pub const AMPERSAND: u8 = 23;
/// `|`.
pub const BAR: u8 = 24;
/// `-`.
pub const MINUS: u8 = 26;
/// `*`.
pub const STAR: u8 = 27;
/// `~`.
pub const TILDE: u8 = 31;
