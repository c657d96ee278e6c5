//! The codes of signs: of one byte that byte, of two bytes 128 to 130.

pub const OPEN_BRACE: u8 = b'{';

pub const CLOSE_BRACE: u8 = b'}';

pub const OPEN_BRACKET: u8 = b'(';

pub const CLOSE_BRACKET: u8 = b')';

pub const OPEN_SQUARE: u8 = b'[';

pub const CLOSE_SQUARE: u8 = b']';

pub const LESS: u8 = b'<';

pub const GREATER: u8 = b'>';

pub const COMMA: u8 = b',';

pub const SEMICOLON: u8 = b';';

pub const COLON: u8 = b':';

pub const QUESTION: u8 = b'?';

pub const DOT: u8 = b'.';

pub const PLUS: u8 = b'+';

pub const MINUS: u8 = b'-';

pub const TIMES: u8 = b'*';

pub const OVER: u8 = b'/';

pub const EQUAL: u8 = b'=';

pub const NOT: u8 = b'!';

pub const AND: u8 = b'&';

pub const OR: u8 = b'|';

pub const HASH: u8 = b'#';

/// `<=`.
pub const AT_MOST: u8 = 128;
/// `>=`.
pub const AT_LEAST: u8 = 129;
/// `!=`.
pub const NOT_EQUAL: u8 = 130;
