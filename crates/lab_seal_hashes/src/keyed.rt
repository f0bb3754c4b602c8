//! Keyed hashes: HMAC with SHA-256.
ghost use Rattle.std.specs.Prelude.{◌≡◌, ◌≤◌, ◌++◌, ℕ, List, length};
ghost use Rattle.sha2.specs.Hashers.{Holds256};
ghost use Rattle.lab_seal_hashes.specs.Hmac.{zero_filled, block_key, xor_each, inner_block, hmac_sha256};
ghost use Rattle.lab_seal_hashes.specs.Private.Keyed.{IsKeyed};

use sha2::{Digest, Sha256};

/// The length of a block of SHA-256 in bytes.
const BLOCK: usize = 64;

/// The byte that a key is combined with before the text.
const INNER_PAD: u8 = 0x36;

/// The byte that a key is combined with before the inner digest.
const OUTER_PAD: u8 = 0x5c;

/// Returns the HMAC with SHA-256 of a text under a key (RFC 2104, section 2).
pub fn hmac(key: &[u8], text: &[u8]) -> [u8; 32]
    ensures { result ≡ hmac_sha256 key.now text.now }
{
    KeyedHash::new(key).tag(text)
}

// A key of HMAC, of which both blocks are already hashed.
#[derive(Drop)]
pub(crate) struct KeyedHash {
    inner: Sha256,
    outer: Sha256,
}

impl KeyedHash {
    pub(crate) fn new(key: &[u8]) -> KeyedHash
        ensures { IsKeyed key.now result }
    {
        let block = block_of(key);
        KeyedHash {
            inner: Sha256::new_with_prefix(padded_block(&block, INNER_PAD)),
            outer: Sha256::new_with_prefix(padded_block(&block, OUTER_PAD)),
        }
    }

    // HMAC of a text under the key.
    pub(crate) fn tag(&self, text: &[u8]) -> [u8; 32]
        ensures { (key : List ℕ) → IsKeyed key self.now → result ≡ hmac_sha256 key text.now }
    {
        self.finish(copy_of(&self.inner).chain_update(text))
    }

    // HMAC of a text in two parts under the key.
    pub(crate) fn tag_of_parts(&self, first: &[u8], second: &[u8]) -> [u8; 32]
        ensures { (key : List ℕ) → IsKeyed key self.now → result
            ≡ hmac_sha256 key (first.now ++ second.now) }
    {
        self.finish(
            copy_of(&self.inner)
                .chain_update(first)
                .chain_update(second),
        )
    }

    // HMAC of the text that the inner hasher has read after the inner block of the key.
    fn finish(&self, inner: Sha256) -> [u8; 32]
        ensures { (key text : List ℕ) → IsKeyed key self.now
            → Holds256 inner (inner_block key ++ text)
            → result ≡ hmac_sha256 key text }
    {
        let digest = inner.finalize();
        copy_of(&self.outer).chain_update(digest).finalize()
    }
}

// The key as a block: it is hashed if it is longer than a block, and filled up with zeros.
#[tactic(auto, unfolding(crate::specs::Hmac::block_key))]
fn block_of(key: &[u8]) -> [u8; BLOCK]
    ensures { result ≡ block_key key.now }
{
    if key.len() > BLOCK {
        zero_filled(&Sha256::digest(key))
    } else {
        zero_filled(key)
    }
}

fn zero_filled(key: &[u8]) -> [u8; BLOCK]
    requires { length key.now ≤ 64 }
    ensures { result ≡ zero_filled key.now }
{
    let mut block = [0; BLOCK];
    block[..key.len()].copy_from_slice(key);
    block
}

fn padded_block(block: &[u8; BLOCK], pad: u8) -> [u8; BLOCK]
    ensures { result ≡ xor_each pad block.now }
{
    let mut padded = *block;
    for byte in padded.iter_mut() {
        *byte ^= pad;
    }
    padded
}

fn copy_of(hasher: &Sha256) -> Sha256
    ensures { result ≡ hasher.now }
{
    match hasher.clone() {
        Ok(copy) => copy,
        Err(_) => unreachable!(),
    }
}
