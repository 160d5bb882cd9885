//! Parses decimal numbers and status words.
ghost use Rattle.std.specs.Prelude.{◌≡◌, ◌<◌, ◌≤◌, ◌^◌, IfSome, true};
ghost use Rattle.std.specs.List.{list_all};
ghost use Rattle.std.specs.Char.{is_ascii_digit, is_ascii_hexdigit};
ghost use Rattle.std.specs.Str.Parse.{digits_value};
ghost use Rattle.text_io.specs.Numbers.{is_number, is_word, number_in, number_of, number_within};
ghost use Rattle.text_io.specs.Numbers.{status_word};

/// The maximum number of digits of a number (this project's profile).
const MOST_DIGITS: usize = 18;

/// Returns `true` if `text` is a number from 1: 1 to 18 decimal digits without a leading zero (this
/// project's profile).
pub fn is_number(text: &[u8]) -> bool
    ensures { result ≡ is_number text.now }
{
    1 <= text.len() && text.len() <= MOST_DIGITS && are_digits(text) && text[0] != b'0'
}

/// Returns `true` if every byte of `text` is a decimal digit.
pub fn are_digits(text: &[u8]) -> bool
    ensures { result ≡ list_all is_ascii_digit text.now }
{
    text.iter().all(|byte| byte.is_ascii_digit())
}

/// Parses a number from 1: 1 to 18 decimal digits without a leading zero. Returns `None` for any
/// other text.
pub fn number_in(text: &[u8]) -> Option<u64>
    ensures value { result ≡ number_in text.now }
    ensures range { IfSome result (λ n. (1 ≤ n) × (n < 10 ^ 18)) }
{
    if is_number(text) {
        Some(decimal(text))
    } else {
        None
    }
}

fn decimal(digits: &[u8]) -> u64
    requires { is_number digits.now ≡ true }
    ensures { result ≡ digits_value 10 digits.now }
{
    let mut number = 0;
    for digit in digits {
        number = number * 10 + u64::from(*digit - b'0');
    }
    number
}

/// Parses a decimal number from `least` to `most`, of at most 18 digits and without leading zeros.
/// Returns `None` for any other text.
pub fn number_within(text: &[u8], least: u64, most: u64) -> Option<u64>
    ensures value { result ≡ number_within least most text.now }
    ensures least { IfSome result (λ n. least ≤ n) }
    ensures most { IfSome result (λ n. n ≤ most) }
{
    let number = number_of(text)?;
    if least <= number && number <= most {
        Some(number)
    } else {
        None
    }
}

fn number_of(text: &[u8]) -> Option<u64>
    ensures { result ≡ number_of text.now }
{
    if text == b"0".as_slice() {
        Some(0)
    } else {
        number_in(text)
    }
}

/// Parses a status word (SW1-SW2 of ISO/IEC 7816-4): four hexadecimal digits of either case.
/// Returns `None` for any other text.
pub fn status_word(text: &[u8]) -> Option<u16>
    ensures { result ≡ status_word text.now }
{
    if !is_word(text) {
        return None;
    }
    let digits = str::from_utf8(text).ok()?;
    u16::from_str_radix(digits, 16).ok()
}

fn is_word(text: &[u8]) -> bool
    ensures { result ≡ is_word text.now }
{
    text.len() == 4 && are_hex_digits(text)
}

fn are_hex_digits(text: &[u8]) -> bool
    ensures { result ≡ list_all is_ascii_hexdigit text.now }
{
    text.iter().all(|byte| byte.is_ascii_hexdigit())
}
