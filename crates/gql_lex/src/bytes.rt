//! Tests of single bytes.
ghost use Rattle.std.specs.Prelude.{◌≡◌, ◌==◌, ◌&&◌, slice_index};
ghost use Rattle.gql_lex.specs.Characters.{is_blank, is_digit, is_escaped_quotes, is_float_mark, is_ignored, is_line_end, is_mark, is_number_start, is_punctuator, is_spread, is_three_quotes, is_two_quotes, may_stand, may_stand_in_block, quote};
ghost use Rattle.gql_plain.specs.Names.{is_name_byte, is_name_start, is_within};
ghost use Rattle.gql_lex.specs.Lines.{ends_line};

/// The byte at an index, or 0 past the end.
pub fn byte_at(bytes: &[u8], index: usize) -> u8
    ensures { result ≡ slice_index bytes.now index }
{
    if index < bytes.len() { bytes[index] } else { 0 }
}

/// Whether a byte lies between two, both included.
pub fn is_within(low: u8, high: u8, byte: u8) -> bool
    ensures { result ≡ is_within low high byte }
{
    low <= byte && byte <= high
}

/// Whether a byte is LF or CR.
pub fn is_line_end(byte: u8) -> bool
    ensures { result ≡ is_line_end byte }
{
    byte == b'\n' || byte == b'\r'
}

/// Whether a byte is a tab, a space or a comma.
pub fn is_blank(byte: u8) -> bool
    ensures { result ≡ is_blank byte }
{
    byte == b'\t' || byte == b' ' || byte == b','
}

/// Whether a byte may stand in a string or a comment.
pub fn may_stand(byte: u8) -> bool
    ensures { result ≡ may_stand byte }
{
    byte >= b' ' || byte == b'\t'
}

/// Whether a byte is an ASCII digit.
pub fn is_digit(byte: u8) -> bool
    ensures { result ≡ is_digit byte }
{
    is_within(b'0', b'9', byte)
}

/// Whether a byte may begin a Name.
pub fn is_name_start(byte: u8) -> bool
    ensures { result ≡ is_name_start byte }
{
    is_within(b'A', b'Z', byte) || is_within(b'a', b'z', byte) || byte == b'_'
}

/// Whether a byte may stand in a Name.
pub fn is_name_byte(byte: u8) -> bool
    ensures { result ≡ is_name_byte byte }
{
    is_name_start(byte) || is_digit(byte)
}

/// Whether a byte is a punctuator by itself.
pub fn is_punctuator(byte: u8) -> bool
    ensures { result ≡ is_punctuator byte }
{
    byte == b'!'
        || byte == b'$'
        || byte == b'&'
        || byte == b'('
        || byte == b')'
        || byte == b':'
        || byte == b'='
        || byte == b'@'
        || byte == b'['
        || byte == b']'
        || is_within(b'{', b'}', byte)
}

/// Whether a byte is ignored by itself.
pub fn is_ignored(byte: u8) -> bool
    ensures { result ≡ is_ignored byte }
{
    is_blank(byte) || is_line_end(byte)
}

/// Whether a byte order mark stands here.
pub fn is_mark(bytes: &[u8]) -> bool
    ensures { result ≡ is_mark bytes.now }
{
    byte_at(bytes, 0) == 239 && byte_at(bytes, 1) == 187 && byte_at(bytes, 2) == 191
}

/// Whether `...` stands here.
pub fn is_spread(bytes: &[u8]) -> bool
    ensures { result ≡ is_spread bytes.now }
{
    byte_at(bytes, 0) == b'.' && byte_at(bytes, 1) == b'.' && byte_at(bytes, 2) == b'.'
}

/// Whether a byte may begin a number.
pub fn is_number_start(byte: u8) -> bool
    ensures { result ≡ is_number_start byte }
{
    byte == b'-' || is_digit(byte)
}

/// Whether a byte begins a fraction or an exponent.
pub fn is_float_mark(byte: u8) -> bool
    ensures { result ≡ is_float_mark byte }
{
    byte == b'.' || byte == b'e' || byte == b'E'
}

/// Whether a byte may stand in a Block.
pub fn may_stand_in_block(byte: u8) -> bool
    ensures { result ≡ may_stand_in_block byte }
{
    may_stand(byte) || is_line_end(byte)
}

/// Whether `"""` stands here.
pub fn is_three_quotes(bytes: &[u8]) -> bool
    ensures { result ≡ is_three_quotes bytes.now }
{
    byte_at(bytes, 0) == b'"' && byte_at(bytes, 1) == b'"' && byte_at(bytes, 2) == b'"'
}

/// Whether `\"""` stands here.
pub fn is_escaped_quotes(bytes: &[u8]) -> bool
    ensures { result ≡ is_escaped_quotes bytes.now }
{
    byte_at(bytes, 0) == b'\\' && is_three_quotes(&bytes[1..])
}

/// Whether `""` stands here.
pub fn is_two_quotes(bytes: &[u8]) -> bool
    ensures { result ≡ is_two_quotes bytes.now }
{
    byte_at(bytes, 0) == b'"' && byte_at(bytes, 1) == b'"'
}

/// Whether a line ends with this byte, before the rest: LF, and CR that no LF follows.
pub fn ends_line(byte: u8, rest: &[u8]) -> bool
    ensures { result ≡ ends_line byte rest.now }
{
    byte == b'\n' || (byte == b'\r' && byte_at(rest, 0) != b'\n')
}
