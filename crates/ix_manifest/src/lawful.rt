//! Which manifests are lawful.
ghost use Rattle.std.specs.Prelude.{◌≡◌, ◌↔◌, ◌+◌, ◌-◌, ◌^◌, min, IsTrue, IfSome, IfNone, All, AllPairs, Any};
ghost use Rattle.hex.specs.Hex.{IsBytes};
ghost use Rattle.ix_manifest.specs.ManifestText.{AreFields, AreSegments, IsManifest, IsRemovals, IsSegment, view_of};

use crate::{Manifest, Removals, Segment};

/// The most documents of a segment.
const MAX_DOCUMENTS: u32 = 1 << 28;

/// The lines before those of the segments.
pub const HEAD_LINES: u64 = 2;

impl Manifest {
    /// Whether each file number is below `next`, no two are the same, and each segment has at most 2^28 documents.
    pub fn is_lawful(&self) -> bool
        ensures { IsTrue result ↔ IsManifest (view_of self.now) }
    {
        self.unlawful_line().is_none()
    }

    /// The number of the first line that is not lawful.
    pub(crate) fn unlawful_line(&self) -> Option<u64>
        ensures lawful { IfNone result (IsManifest (view_of self.now)) }
        ensures unlawful { IfSome result (λ _. ¬ (IsManifest (view_of self.now))) }
    {
        if let Some(place) = unlawful_segment(&self.segments, self.next) {
            return Some(line_at(place));
        }
        match &self.removals {
            None => None,
            Some(removals) => {
                if is_lawful_removals(removals, &self.segments, self.next) {
                    None
                } else {
                    Some(line_at(self.segments.len()))
                }
            }
        }
    }
}

/// The number of the line at a place behind the head.
pub fn line_at(place: usize) -> u64
    ensures { result ≡ min (HEAD_LINES + place + 1) (2 ^ 64 - 1) }
{
    HEAD_LINES.saturating_add(place as u64).saturating_add(1)
}

/// The place of the first segment that is not lawful beside those before it.
fn unlawful_segment(segments: &[Segment], next: u64) -> Option<usize>
    ensures lawful { IfNone result (AreSegments next segments.now) }
    ensures unlawful { IfSome result (λ _. ¬ (AreSegments next segments.now)) }
{
    for place in 0..segments.len() {
        let segment = &segments[place];
        if !is_lawful_segment(segment, next) {
            return Some(place);
        }
        if has_file(&segments[..place], segment.file) {
            return Some(place);
        }
    }
    None
}

/// Whether a segment is lawful by itself.
fn is_lawful_segment(segment: &Segment, next: u64) -> bool
    ensures { IsTrue result ↔ IsSegment next segment.now }
{
    let Segment {
        file,
        documents,
        bytes,
        digest,
    } = segment;
    let count = u64::from(*documents);
    *documents <= MAX_DOCUMENTS && are_lawful_fields(*file, count, *bytes, digest, next)
}

/// Whether the removals are lawful beside segments.
fn is_lawful_removals(removals: &Removals, segments: &[Segment], next: u64) -> bool
    ensures { IsTrue result ↔ IsRemovals next segments.now removals.now }
{
    let Removals {
        file,
        count,
        bytes,
        digest,
    } = removals;
    are_lawful_fields(*file, *count, *bytes, digest, next) && !has_file(segments, *file)
}

/// Whether the fields of a line are lawful, which is a question of the file alone.
fn are_lawful_fields(file: u64, _count: u64, _bytes: u64, digest: &[u8; 32], next: u64) -> bool
    ensures { IsTrue result ↔ AreFields next file _count _bytes digest.now }
{
    note_octets(digest);
    file < next
}

/// States that the elements of a digest are bytes. A proof has this fact at a call that takes the array.
fn note_octets(_digest: &[u8; 32])
    requires { IsBytes _digest.now }
    ensures { IsBytes _digest.now }
{}

/// Whether one of the segments has this file.
fn has_file(segments: &[Segment], file: u64) -> bool
    ensures { IsTrue result ↔ Any (λ segment. segment.file ≡ file) segments.now }
{
    segments.iter().any(|segment| segment.file == file)
}
