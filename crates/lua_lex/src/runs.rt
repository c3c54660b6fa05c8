ghost use Rattle.std.specs.Prelude.{◌≡◌, ◌≤◌, ◌<◌, length, not, position, IfSome};
ghost use Rattle.std.specs.List.{prefix_len};
ghost use Rattle.lua_lex.specs.Runs.{is_name_byte, is_number_byte, name_len, mark_len, sign_len, numeral_len};

/// How many bytes at the front of `text` may stand in a name.
pub fn name_len(text: &[u8]) -> usize
    ensures value { result ≡ name_len text.now }
    ensures within { result ≤ length text.now }
{
    first_no_name(text).unwrap_or(text.len())
}

fn first_no_name(text: &[u8]) -> Option<usize>
    ensures value { result ≡ position (λ b. not (is_name_byte b)) text.now }
    ensures within { IfSome result (λ i. i < length text.now) }
{
    text.iter().position(|byte| !is_name_byte(*byte))
}

/// How many bytes the numeral at the front of `text` has, whether it is well formed or not.
pub fn numeral_len(text: &[u8]) -> usize
    ensures value { result ≡ numeral_len text.now }
    ensures within { result ≤ length text.now }
{
    let number = number_len(text);
    let (_, rest) = text.split_at(number);
    let mark = mark_len(rest);
    let (_, rest) = rest.split_at(mark);
    number + mark + name_len(rest)
}

fn number_len(text: &[u8]) -> usize
    ensures value { result ≡ prefix_len is_number_byte text.now }
    ensures within { result ≤ length text.now }
{
    first_no_number(text).unwrap_or(text.len())
}

fn first_no_number(text: &[u8]) -> Option<usize>
    ensures value { result ≡ position (λ b. not (is_number_byte b)) text.now }
    ensures within { IfSome result (λ i. i < length text.now) }
{
    text.iter().position(|byte| !is_number_byte(*byte))
}

fn mark_len(text: &[u8]) -> usize
    ensures value { result ≡ mark_len text.now }
    ensures within { result ≤ length text.now }
{
    match text.split_first() {
        Some((b'e' | b'E', rest)) => 1 + sign_len(rest),
        _ => 0,
    }
}

fn sign_len(text: &[u8]) -> usize
    ensures value { result ≡ sign_len text.now }
    ensures within { result ≤ length text.now }
{
    match text.split_first() {
        Some((b'+' | b'-', _)) => 1,
        _ => 0,
    }
}

fn is_name_byte(byte: u8) -> bool
    ensures { result ≡ is_name_byte byte }
{
    byte.is_ascii_alphanumeric() || byte == b'_'
}

fn is_number_byte(byte: u8) -> bool
    ensures { result ≡ is_number_byte byte }
{
    byte.is_ascii_digit() || byte == b'.'
}
