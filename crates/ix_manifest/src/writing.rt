//! Writing a manifest.
ghost use Rattle.std.specs.Prelude.{◌≡◌, ◌++◌, length, IfOk, OnOk, string_bytes};
ghost use Rattle.std.specs.List.{flat_map};
ghost use Rattle.ix_manifest.specs.ManifestText.{body_text, fields_text, manifest_text, removals_text, segment_text, view_of};

use crate::{Manifest, Removals, Segment};
use sha2::{Digest, Sha256};
use std::alloc::{AllocError, Global};

impl Manifest {
    /// The manifest's text.
    ///
    /// # Errors
    /// Out of memory.
    #[tactic(auto, unfolding(crate::specs::ManifestText::manifest_text))]
    pub fn text(&self, alloc: Global) -> Result<String, AllocError>
        ensures { IfOk result (λ text. string_bytes text ≡ manifest_text (view_of self.now)) }
    {
        let mut text = self.body(alloc)?;
        let digest: [u8; 32] = Sha256::digest(text.as_str());
        let digits = hex::encode(alloc, digest)?;
        write!(text, "end {digits}\n")?;
        Ok(text)
    }

    /// All lines but the last one.
    #[tactic(auto, unfolding(crate::specs::ManifestText::body_text))]
    fn body(&self, alloc: Global) -> Result<String, AllocError>
        ensures { IfOk result (λ text. string_bytes text ≡ body_text (view_of self.now)) }
    {
        let mut text = String::new(alloc);
        let next = self.next;
        write!(text, "ix archive 1\nnext {next}\n")?;
        push_segments(&mut text, &self.segments)?;
        push_removals(&mut text, &self.removals)?;
        Ok(text)
    }
}

/// Appends the lines of segments.
fn push_segments(text: &mut String, segments: &[Segment]) -> Result<(), AllocError>
    ensures { OnOk result (string_bytes text.new
        ≡ string_bytes text.old ++ flat_map segment_text segments.now) }
{
    for segment in segments {
        text.push_str("segment ")?;
        let documents = u64::from(segment.documents);
        push_fields(
            text,
            segment.file,
            documents,
            segment.bytes,
            &segment.digest,
        )?;
    }
    Ok(())
}

/// Appends the line of the removals, if there are any.
fn push_removals(text: &mut String, removals: &Option<Removals>) -> Result<(), AllocError>
    ensures { OnOk result (string_bytes text.new
        ≡ string_bytes text.old ++ removals_text removals.now) }
{
    if let Some(removals) = removals {
        text.push_str("removals ")?;
        push_fields(
            text,
            removals.file,
            removals.count,
            removals.bytes,
            &removals.digest,
        )?;
    }
    Ok(())
}

/// Appends the fields of a line, and LF.
fn push_fields(
    text: &mut String,
    file: u64,
    count: u64,
    bytes: u64,
    digest: &[u8; 32],
) -> Result<(), AllocError>
    ensures { OnOk result (string_bytes text.new
        ≡ string_bytes text.old ++ fields_text file count bytes digest.now) }
{
    let digits = hex::encode(*text.allocator(), digest)?;
    write!(text, "{file} {count} {bytes} {digits}\n")
}
