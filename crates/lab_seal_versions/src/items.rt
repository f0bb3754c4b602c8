//! Items: texts that are written one after the other, each after its length, so two different lists
//! of texts are never written alike.
ghost use Rattle.std.specs.Prelude.{◌≡◌, ◌++◌, OnOk, IsTrue, decimal};
ghost use Rattle.hex.specs.Hex.{encode_lower};
ghost use Rattle.lab_forms_texts.specs.Moment.{is_moment, moment_text};
ghost use Rattle.lab_seal_versions.specs.Versions.{item, IsDigest};

use itoa::Buffer;
use lab_forms_texts::{Moment, OutOfMemory};
use lab_seal_hashes::Digest;

// Adds a text as an item.
#[tactic(auto, unfolding(crate::specs::Versions::item))]
pub(crate) fn push_item(text: &mut Vec<u8>, bytes: &[u8]) -> Result<(), OutOfMemory>
    ensures { OnOk result (text.new.items ≡ text.old.items ++ item bytes.now) }
{
    let mut buffer = Buffer::new();
    text.extend_from_slice(buffer.format(bytes.len()).as_bytes())?;
    text.extend_from_slice(b":")?;
    text.extend_from_slice(bytes)?;
    text.extend_from_slice(b"\n")?;
    Ok(())
}

// Adds the decimal digits of a number as an item.
pub(crate) fn push_number(text: &mut Vec<u8>, number: u64) -> Result<(), OutOfMemory>
    ensures { OnOk result (text.new.items ≡ text.old.items ++ item (decimal number)) }
{
    let mut buffer = Buffer::new();
    push_item(text, buffer.format(number).as_bytes())
}

// Adds the text of a moment as an item.
pub(crate) fn push_moment(text: &mut Vec<u8>, moment: Moment) -> Result<(), OutOfMemory>
    ensures text { OnOk result (text.new.items ≡ text.old.items ++ item (moment_text moment)) }
    ensures in_range { IsTrue (is_moment moment) }
{
    let mut printed = [0; 20];
    moment.print(&mut printed);
    push_item(text, &printed)
}

// Adds the digits of a digest as an item.
pub(crate) fn push_digest(text: &mut Vec<u8>, digest: &Digest) -> Result<(), OutOfMemory>
    ensures text { OnOk result (text.new.items ≡ text.old.items ++ item (encode_lower digest.now)) }
    ensures bytes { IsDigest digest.now }
{
    push_item(text, &digest.digits())
}
