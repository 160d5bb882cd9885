//! Decodes pairs of hexadecimal digits.

ghost use Rattle.std.specs.Prelude.{◌≡◌, ◌*◌, length, unwrap_or, if◌then◌else◌};
ghost use Rattle.hex.specs.Hex.{decode_pairs, hex_digit_value};
ghost use Rattle.dgi.specs.declared.fault.DgiFault.TheVariants.{NotHex};
ghost use Rattle.dgi.specs.Coding.{bytes_or_fault};

/// Decodes each pair of digits in `text`, in either case, to one byte of `bytes`, high digit first.
/// Returns `true` if all of `text` is digits. Otherwise, the contents of `bytes` are meaningless.
///
/// The loop doesn't stop at a wrong character, so that the compiler can process several bytes at
/// once.
pub fn decode(text: &[u8], bytes: &mut [u8]) -> bool
    requires { length text.now ≡ 2 * length bytes.old }
    ensures { bytes_or_fault (decode_pairs 0 text.now)
        ≡ (if result then Ok bytes.new else Err NotHex) }
{
    let mut all = true;
    for i in 0..bytes.len() {
        let high = digit(text[2 * i]);
        let low = digit(text[2 * i + 1]);
        bytes[i] = high % 16 * 16 + low % 16;
        all = all & (high < 16) & (low < 16);
    }
    all
}

// Returns the value of the hexadecimal digit `c`, or 255 if `c` isn't a digit.
fn digit(c: u8) -> u8
    ensures { result ≡ unwrap_or (hex_digit_value c) 255 }
{
    match c {
        b'0'..=b'9' => c - b'0',
        b'A'..=b'F' | b'a'..=b'f' => c % 32 + 9,
        _ => 255,
    }
}
