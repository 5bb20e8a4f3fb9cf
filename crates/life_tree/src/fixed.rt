//! The numbers of the tokens that a rule of the grammar quotes: keywords, marks, and names of the
//! library.

/// `auto`.
pub const AUTO: u16 = 0;

/// `bool`.
pub const BOOL: u16 = 1;

/// `break`.
pub const BREAK: u16 = 2;

/// `char`.
pub const CHAR: u16 = 3;

/// `const`.
pub const CONST: u16 = 4;

/// `continue`.
pub const CONTINUE: u16 = 5;

/// `else`.
pub const ELSE: u16 = 6;

/// `false`.
pub const FALSE: u16 = 7;

/// `for`.
pub const FOR: u16 = 8;

/// `if`.
pub const IF: u16 = 9;

/// `int`.
pub const INT: u16 = 10;

/// `long`.
pub const LONG: u16 = 11;

/// `nullptr`.
pub const NULLPTR: u16 = 12;

/// `return`.
pub const RETURN: u16 = 13;

/// `static`.
pub const STATIC: u16 = 14;

/// `struct`.
pub const STRUCT: u16 = 15;

/// `true`.
pub const TRUE: u16 = 16;

/// `void`.
pub const VOID: u16 = 17;

/// `while`.
pub const WHILE: u16 = 18;

/// `{`.
pub const LEFT_BRACE: u16 = 19;

/// `}`.
pub const RIGHT_BRACE: u16 = 20;

/// `(`.
pub const LEFT_PAREN: u16 = 21;

/// `)`.
pub const RIGHT_PAREN: u16 = 22;

/// `[`.
pub const LEFT_BRACKET: u16 = 23;

/// `]`.
pub const RIGHT_BRACKET: u16 = 24;

/// `;`.
pub const SEMICOLON: u16 = 25;

/// `,`.
pub const COMMA: u16 = 26;

/// `.`.
pub const DOT: u16 = 27;

/// `->`.
pub const ARROW: u16 = 28;

/// `&`.
pub const AMPERSAND: u16 = 29;

/// `&&`.
pub const AND_AND: u16 = 30;

/// `||`.
pub const OR_OR: u16 = 31;

/// `*`.
pub const STAR: u16 = 32;

/// `+`.
pub const PLUS: u16 = 33;

/// `-`.
pub const MINUS: u16 = 34;

/// `/`.
pub const SLASH: u16 = 35;

/// `%`.
pub const PERCENT: u16 = 36;

/// `!`.
pub const NOT: u16 = 37;

/// `=`.
pub const ASSIGN: u16 = 38;

/// `==`.
pub const EQUAL: u16 = 39;

/// `!=`.
pub const NOT_EQUAL: u16 = 40;

/// `<`.
pub const LESS: u16 = 41;

/// `<=`.
pub const LESS_EQUAL: u16 = 42;

/// `>`.
pub const GREATER: u16 = 43;

/// `>=`.
pub const GREATER_EQUAL: u16 = 44;

/// `<<`.
pub const SHIFT_LEFT: u16 = 45;

/// `++`.
pub const PLUS_PLUS: u16 = 46;

/// `--`.
pub const MINUS_MINUS: u16 = 47;

/// `+=`.
pub const PLUS_ASSIGN: u16 = 48;

/// `-=`.
pub const MINUS_ASSIGN: u16 = 49;

/// `*=`.
pub const STAR_ASSIGN: u16 = 50;

/// `/=`.
pub const SLASH_ASSIGN: u16 = 51;

/// `%=`.
pub const PERCENT_ASSIGN: u16 = 52;

/// `:`.
pub const COLON: u16 = 53;

/// `::`.
pub const SCOPE: u16 = 54;

/// `std`.
pub const STD: u16 = 55;

/// `gsl`.
pub const GSL: u16 = 56;

/// `life`.
pub const LIFE: u16 = 57;

/// `assert`.
pub const ASSERT: u16 = 58;

/// `size_t`.
pub const SIZE_T: u16 = 59;

/// `string`.
pub const STRING: u16 = 60;

/// `string_view`.
pub const STRING_VIEW: u16 = 61;

/// `vector`.
pub const VECTOR: u16 = 62;

/// `iterator`.
pub const ITERATOR: u16 = 63;

/// `const_iterator`.
pub const CONST_ITERATOR: u16 = 64;

/// `unique_ptr`.
pub const UNIQUE_PTR: u16 = 65;

/// `span`.
pub const SPAN: u16 = 66;

/// `cout`.
pub const COUT: u16 = 67;

/// `endl`.
pub const ENDL: u16 = 68;

/// `move`.
pub const MOVE: u16 = 69;

/// `make_unique`.
pub const MAKE_UNIQUE: u16 = 70;

/// `input`.
pub const INPUT: u16 = 71;
