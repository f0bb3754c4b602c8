//! The digest of the present text of a version, and signatures with their seals.
ghost use Rattle.std.specs.Prelude.{◌≡◌, [], IfOk};
ghost use Rattle.lab_seal_versions.specs.Versions.{with_rows};
ghost use Rattle.lab_records_kept.specs.Digests.{parts_of, digest_of, signature_of};

use crate::records::{Record, Signature, Version};
use lab_forms_texts::{LabCode, OutOfMemory};
use lab_seal_versions::{
    Digest, EntryRows, SealParts, VersionParts, digest, seal, write_with_rows,
};
use std::alloc::Global;

impl Record {
    /// Returns the digest of a version of the record, in the laboratory with the code: the digest
    /// of its present text. The only error is that memory ran out.
    ///
    /// # Errors
    /// Memory ran out.
    pub fn digest_of(
        &self,
        alloc: Global,
        lab: &LabCode,
        version: &Version,
    ) -> Result<Digest, OutOfMemory>
        ensures { IfOk result (λ digest. digest ≡ digest_of lab.now self.now version.now) }
    {
        let parts = self.parts_without_rows(alloc, lab, version)?;
        let text = write_with_rows(alloc, &parts, &version.rows);
        drop(parts);
        Ok(digest(&text?))
    }

    // The parts of the version's text, copied, without any rows.
    fn parts_without_rows(
        &self,
        alloc: Global,
        lab: &LabCode,
        version: &Version,
    ) -> Result<VersionParts, OutOfMemory>
        ensures { IfOk result
            (λ parts. parts ≡ with_rows (parts_of lab.now self.now version.now) []) }
    {
        let lab = lab.copy()?;
        let form = self.form.code.copy()?;
        let sample = self.sample.copy()?;
        let opener = version.opener.copy()?;
        let origin = version.origin.copy()?;
        Ok(VersionParts {
            format: version.format,
            lab,
            record_number: self.number,
            origin,
            form,
            form_version: self.form.version,
            sample,
            opener,
            opened: version.opened,
            rows: EntryRows::new(Vec::new(alloc)),
        })
    }
}

impl Signature {
    /// Makes the signature with these parts, and its seal.
    pub fn of_parts(parts: SealParts) -> Signature
        ensures { result ≡ signature_of parts }
    {
        let seal = seal(&parts);
        Signature {
            person: parts.person,
            name: parts.name,
            meaning: parts.meaning,
            moment: parts.moment,
            digest: parts.version,
            seal,
        }
    }
}
