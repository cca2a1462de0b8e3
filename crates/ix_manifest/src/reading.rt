//! Reading a manifest.
ghost use Rattle.std.specs.Prelude.{◌≡◌, ◌≢◌, ◌++◌, ◌<◌, ◌^◌, ℕ, List, Option, length, IfOk, IfSome, IsOkAnd, IsSomeAnd, MatchResult, IsUtf8, codes};
ghost use Rattle.ix_manifest.specs.ManifestText.{IsManifest, IsRemovals, IsSegment, ManifestView, head_text, manifest_text, removals_text, segment_fields, view_of};
ghost use Rattle.ix_manifest.specs.ManifestParts.{AreSegmentsOf, IsBehind};
ghost use Rattle.ix_manifest.specs.declared.manifest_error.ManifestError.TheVariants.{Memory};

use crate::lawful::{HEAD_LINES, line_at};
use crate::scan::{rest_after, scan_fields, scan_number};
use crate::{Manifest, ManifestError, Removals, Segment};
use std::alloc::Global;
use std::str::from_utf8;

/// Reads the text of a manifest.
///
/// # Errors
/// * `Line` if the bytes are not the text of a lawful manifest, with the number of a line that is not as a manifest has
///   it, from 1. If the digest of the `end` line is not that of the lines before it, it is that line.
/// * `Memory` if out of memory.
pub fn read(alloc: Global, bytes: &[u8]) -> Result<Manifest, ManifestError>
    ensures found { IfOk result (λ manifest.
        IsManifest (view_of manifest) × (bytes.now ≡ manifest_text (view_of manifest))) }
    ensures exact { (view : ManifestView) → IsManifest view → bytes.now ≡ manifest_text view
        → MatchResult result (λ manifest. view_of manifest ≡ view) (λ error. error ≡ Memory) }
{
    let manifest = read_lines(alloc, valid_front(bytes))?;
    let text = manifest.text(alloc)?;
    if text.as_bytes() != bytes {
        return Err(ManifestError::Line(line_of_difference(text.as_bytes(), bytes)));
    }
    if let Some(line) = manifest.unlawful_line() {
        return Err(ManifestError::Line(line));
    }
    Ok(manifest)
}

/// The longest front that is UTF-8.
fn valid_front(bytes: &[u8]) -> &str
    ensures { IsUtf8 bytes.entry.now → result.now ≡ bytes.entry.now }
{
    match from_utf8(bytes) {
        Ok(text) => text,
        Err(error) => from_utf8(&bytes[..error.valid_up_to()]).unwrap_or(""),
    }
}

/// The number of the line at which two texts differ first.
fn line_of_difference(one: &[u8], other: &[u8]) -> u64 {
    let mut line = 1u64;
    for (left, right) in one.iter().zip(other) {
        if left != right {
            return line;
        }
        if *left == b'\n' {
            line = line.saturating_add(1);
        }
    }
    line
}

/// Reads all lines but the last one, which is not read. Not every fault is found.
fn read_lines(alloc: Global, text: &str) -> Result<Manifest, ManifestError>
    ensures { (view : ManifestView) → IsManifest view → text.now ≡ manifest_text view
        → MatchResult result (λ manifest. view_of manifest ≡ view) (λ error. error ≡ Memory) }
{
    let (next, left) = read_head(text)?;
    let (segments, left) = read_segments(alloc, left)?;
    let removals = read_removals(left, segments.len())?;
    Ok(Manifest {
        next,
        segments,
        removals,
    })
}

/// Reads the lines before those of the segments. Returns the number of the next file, and what is behind these lines.
fn read_head(text: &str) -> Result<(u64, &str), ManifestError>
    ensures { (next : ℕ) (rest : List ℕ) → next < 2 ^ 64
        → text.entry.now ≡ head_text next ++ rest
        → IsOkAnd result (λ found. (found.0 ≡ next) × (found.1.now ≡ rest)) }
{
    let Some(left) = rest_after(text, "ix archive 1\n") else {
        return Err(ManifestError::Line(1));
    };
    let Some(left) = rest_after(left, "next ") else {
        return Err(ManifestError::Line(HEAD_LINES));
    };
    scan_number(left, '\n').ok_or(ManifestError::Line(HEAD_LINES))
}

/// Reads the lines of the segments. Returns what is behind them, too.
fn read_segments(alloc: Global, text: &str) -> Result<(Vec<Segment>, &str), ManifestError>
    ensures { (next : ℕ) (segments : List Segment) (rest : List ℕ)
        → AreSegmentsOf next text.entry.now segments rest
        → MatchResult result (λ found. (found.0.items ≡ segments) × (found.1.now ≡ rest))
        (λ error. error ≡ Memory) }
{
    let mut segments = Vec::new(alloc);
    let mut left = text;
    while let Some(fields) = rest_after(left, "segment ") {
        let Some((segment, rest)) = read_segment(fields) else {
            return Err(ManifestError::Line(line_at(segments.len())));
        };
        segments.push(segment)?;
        left = rest;
    }
    Ok((segments, left))
}

/// Reads the fields of a segment. Returns what is behind its line, too.
fn read_segment(text: &str) -> Option<(Segment, &str)>
    ensures exact { (next : ℕ) (segment : Segment) (rest : List ℕ)
        → next < 2 ^ 64 → IsSegment next segment
        → text.entry.now ≡ segment_fields segment ++ rest
        → IsSomeAnd result (λ found. (found.0 ≡ segment) × (found.1.now ≡ rest)) }
    ensures shorter { IfSome result (λ found. length found.1.now < length text.entry.now) }
{
    let (fields, rest) = scan_fields(text)?;
    let Ok(documents) = u32::try_from(fields.count) else {
        return None;
    };
    let digest = fields.digest;
    let segment = Segment {
        file: fields.file,
        documents,
        bytes: fields.bytes,
        digest,
    };
    Some((segment, rest))
}

/// Reads the line of the removals, if the text begins with it. So many lines of segments are before it.
fn read_removals(text: &str, segments: usize) -> Result<Option<Removals>, ManifestError>
    ensures { (next : ℕ) (segments : List Segment) (removals : Option Removals) (rest : List ℕ)
        → next < 2 ^ 64 → IfSome removals (IsRemovals next segments)
        → text.now ≡ removals_text removals ++ rest → IsBehind (codes "removals ") rest
        → result ≡ Ok removals }
{
    let Some(fields) = rest_after(text, "removals ") else {
        return Ok(None);
    };
    match scan_fields(fields) {
        Some((removals, _)) => Ok(Some(removals)),
        None => Err(ManifestError::Line(line_at(segments))),
    }
}
