//! Decimal numbers.

ghost use Rattle.std.specs.Prelude.{◌≡◌};
ghost use Rattle.std.specs.Char.{is_ascii_digit};
ghost use Rattle.std.specs.List.{list_all};
ghost use Rattle.jsh_commands.specs.Numbers as spec;

fn are_digits(bytes: &[u8]) -> bool
    ensures { result ≡ list_all is_ascii_digit bytes.now }
{
    bytes.iter().all(|byte| byte.is_ascii_digit())
}

fn has_leading_zero(bytes: &[u8]) -> bool
    ensures { result ≡ spec.has_leading_zero bytes.now }
{
    1 < bytes.len() && bytes[0] == b'0'
}

fn is_decimal(bytes: &[u8]) -> bool
    ensures { result ≡ spec.is_decimal bytes.now }
{
    !bytes.is_empty() && are_digits(bytes) && !has_leading_zero(bytes)
}

/// The number that a text is, without sign and without leading zero, where 32 bits hold it.
pub fn number(text: &str) -> Option<u32>
    ensures { result ≡ spec.number text.now }
{
    if !is_decimal(text.as_bytes()) {
        return None;
    }
    match text.parse::<u32>() {
        Ok(number) => Some(number),
        Err(_) => None,
    }
}
