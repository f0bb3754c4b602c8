//! Bytes as lower-case hexadecimal digits: how they are written and read.
ghost use Rattle.std.specs.Prelude.{◌≡◌, ◌↔◌, ◌*◌, length, IsSome, IfSome};
ghost use Rattle.std.specs.List.{list_all};
ghost use Rattle.hex.specs.Hex.{encode_lower};
ghost use Rattle.lab_seal_hashes.specs.Digits.{is_lower_digit, AreLowerDigits, bytes_of_digits};

// Writes the digits of the bytes.
pub(crate) fn write_digits(bytes: &[u8], digits: &mut [u8])
    requires { length digits.old ≡ 2 * length bytes.now }
    ensures { digits.new ≡ encode_lower bytes.now }
{
    match hex::encode_to_slice(bytes, digits) {
        Ok(()) => (),
        Err(_) => unreachable!(),
    }
}

fn is_lower_digit(digit: u8) -> bool
    ensures { result ≡ is_lower_digit digit }
{
    digit.is_ascii_digit() || (digit >= b'a' && digit <= b'f')
}

fn are_lower_digits(digits: &[u8]) -> bool
    ensures { result ≡ list_all is_lower_digit digits.now }
{
    digits.iter().all(|digit| is_lower_digit(*digit))
}

// The 32 bytes with these digits.
pub(crate) fn bytes_of_digits(digits: &[u8]) -> Option<[u8; 32]>
    ensures value { result ≡ bytes_of_digits 32 digits.now }
    ensures exact { IsSome result ↔ AreLowerDigits 64 digits.now }
    ensures spelled { IfSome result (λ bytes. digits.now ≡ encode_lower bytes) }
{
    decoded_digest(digits)
}

#[tactic(auto, unfolding(crate::specs::Digits::bytes_of_digits))]
fn decoded_digest(digits: &[u8]) -> Option<[u8; 32]>
    ensures { result ≡ bytes_of_digits 32 digits.now }
{
    if !are_lower_digits(digits) {
        return None;
    }
    let mut bytes = [0; 32];
    hex::decode_to_slice(digits, &mut bytes).ok()?;
    Some(bytes)
}
