//! The seal of a signature, hashed item by item.
ghost use Rattle.std.specs.Prelude.{◌≡◌, ◌++◌, List, ℕ};
ghost use Rattle.sha2.specs.Hashers.{Holds256};
ghost use Rattle.lab_seal_versions.specs.Versions.{item};
ghost use Rattle.lab_seal_versions.specs.Seals.{signer_text, signing_text, seal_of};

use crate::{Seal, SealParts};
use itoa::Buffer;
use sha2::{Digest as Hash, Sha256};

/// Returns the seal of a signature: the SHA-256 (FIPS 180-4) of its seven items.
#[tactic(auto, unfolding(crate::specs::Seals::seal_text))]
pub fn seal(parts: &SealParts) -> Seal
    ensures { result ≡ seal_of parts.now }
{
    let hash = with_signing(with_signer(Sha256::new(), parts), parts);
    Seal::from_bytes(hash.finalize())
}

// The hash, with what is signed and who signs.
#[tactic(auto, unfolding(crate::specs::Seals::signer_text))]
fn with_signer(hash: Sha256, parts: &SealParts) -> Sha256
    ensures { (text : List ℕ) → Holds256 hash text
        → Holds256 result (text ++ signer_text parts.now) }
{
    let hash = with_item(hash, &parts.version.digits());
    let hash = with_item(hash, parts.lab.as_str().as_bytes());
    let hash = with_item(hash, parts.person.as_str().as_bytes());
    with_item(hash, parts.name.as_str().as_bytes())
}

// The hash, with the meaning, the moment and the reason.
#[tactic(auto, unfolding(crate::specs::Seals::signing_text))]
fn with_signing(hash: Sha256, parts: &SealParts) -> Sha256
    ensures { (text : List ℕ) → Holds256 hash text
        → Holds256 result (text ++ signing_text parts.now) }
{
    let mut printed = [0; 20];
    parts.moment.print(&mut printed);
    let hash = with_item(hash, parts.meaning.word().as_bytes());
    let hash = with_item(hash, &printed);
    with_item(hash, parts.meaning.reason().as_bytes())
}

// The hash, with a text as an item.
#[tactic(auto, unfolding(crate::specs::Versions::item))]
fn with_item(hash: Sha256, bytes: &[u8]) -> Sha256
    ensures { (text : List ℕ) → Holds256 hash text → Holds256 result (text ++ item bytes.now) }
{
    let mut buffer = Buffer::new();
    let length = buffer.format(bytes.len()).as_bytes();
    hash.chain_update(length)
        .chain_update(b":")
        .chain_update(bytes)
        .chain_update(b"\n")
}
