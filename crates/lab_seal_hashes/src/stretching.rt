//! Stretched passwords: PBKDF2 with HMAC-SHA-256.
ghost use Rattle.std.specs.Prelude.{◌≡◌, ◌≤◌};
ghost use Rattle.lab_seal_hashes.specs.Pbkdf2.{xor_bytes, pbkdf2_block};

use crate::keyed::KeyedHash;

/// The number of the one block that is derived.
const FIRST_BLOCK: u32 = 1;

/// Returns one block of PBKDF2 with HMAC-SHA-256 (RFC 8018, section 5.2), made of a password and a
/// salt in this number of rounds.
pub fn pbkdf2(password: &[u8], salt: &[u8], rounds: u32) -> [u8; 32]
    requires { 1 ≤ rounds }
    ensures { result ≡ pbkdf2_block password.now salt.now rounds }
{
    let keyed = KeyedHash::new(password);
    let mut tag = keyed.tag_of_parts(salt, &FIRST_BLOCK.to_be_bytes());
    let mut sum = tag;
    'rounds: for round in 1..rounds {
        tag = keyed.tag(&tag);
        xor_into(&mut sum, &tag);
    }
    sum
}

fn xor_into(sum: &mut [u8; 32], tag: &[u8; 32])
    ensures { sum.new ≡ xor_bytes sum.old tag.now }
{
    for i in 0..32 {
        sum[i] ^= tag[i];
    }
}
