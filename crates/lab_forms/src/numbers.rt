//! The numbers in values and bounds.
ghost use Rattle.std.specs.Prelude.{length, ◌≡◌, ◌≤◌, ◌<◌, ◌^◌, ℕ, Some, None, if◌then◌else◌, IfSome, position};
ghost use Rattle.lab_forms.specs.Numbers.{is_point, is_digits, decimal_value, is_unsigned_number, millionths_of, without_sign, amount_read, without_comparison};

/// The most digits before the point.
const WHOLE_DIGITS: usize = 15;

/// The most decimals.
pub const DECIMALS_LIMIT: u32 = 6;

const MILLION: u128 = 1_000_000;

/// Returns the number that a text writes with 1 to `most` decimal digits.
#[tactic(auto, unfolding(crate::specs::Numbers::is_digits, crate::specs::Numbers::decimal_value))]
pub fn read_digits(most: usize, text: &[u8]) -> Option<u64>
    requires { most ≤ WHOLE_DIGITS }
    ensures value { result ≡ (if is_digits most text.now then Some (decimal_value text.now) else None) }
    ensures bound { IfSome result (λ number. number < 10 ^ most) }
    ensures few { IfSome result (λ number. length text.now ≤ most) }
{
    if text.is_empty() || text.len() > most {
        return None;
    }
    let mut number = 0;
    for byte in text {
        if !byte.is_ascii_digit() {
            return None;
        }
        number = number * 10 + u64::from(*byte - b'0');
    }
    Some(number)
}

fn point_of(text: &[u8]) -> Option<usize>
    ensures { result ≡ position is_point text.now }
{
    text.iter().position(|byte| *byte == b'.')
}

// The number of millionths that a text without a sign writes.
fn read_unsigned(decimals: u32, text: &[u8]) -> Option<u128>
    requires { decimals ≤ DECIMALS_LIMIT }
    ensures value { result ≡ (if is_unsigned_number decimals text.now
        then Some (millionths_of text.now) else None) }
    ensures bound { IfSome result (λ millionths. millionths < 2 ^ 127) }
{
    let Some(place) = point_of(text) else {
        let whole = read_digits(WHOLE_DIGITS, text)?;
        return Some(u128::from(whole) * MILLION);
    };
    let whole = read_digits(WHOLE_DIGITS, &text[..place])?;
    let fraction = &text[place + 1..];
    let parts = read_digits(decimals as usize, fraction)?;
    let scale = 10_u64.pow(DECIMALS_LIMIT - fraction.len() as u32);
    Some(u128::from(whole) * MILLION + u128::from(parts) * u128::from(scale))
}

#[tactic(auto, unfolding(crate::specs::Numbers::without_sign))]
fn text_without_sign(text: &[u8]) -> &[u8]
    ensures { result.now ≡ without_sign text.now }
{
    match text {
        [b'-' | b'+', rest @ ..] => rest,
        _ => text,
    }
}

/// Returns the amount in millionths that a text writes, if the text is a number of at most
/// `decimals` decimals.
#[tactic(auto, unfolding(crate::specs::Numbers::is_number, crate::specs::Numbers::amount))]
pub fn read_amount(decimals: u32, text: &[u8]) -> Option<i128>
    requires { decimals ≤ DECIMALS_LIMIT }
    ensures { result ≡ amount_read decimals text.now }
{
    let millionths = read_unsigned(decimals, text_without_sign(text))? as i128;
    if text.first() == Some(&b'-') {
        Some(-millionths)
    } else {
        Some(millionths)
    }
}

/// Returns the text after its `<` or `>`, or the whole text if it begins with neither.
#[tactic(auto, unfolding(crate::specs::Numbers::without_comparison))]
pub fn text_without_comparison(text: &[u8]) -> &[u8]
    ensures { result.now ≡ without_comparison text.now }
{
    match text {
        [b'<' | b'>', rest @ ..] => rest,
        _ => text,
    }
}
