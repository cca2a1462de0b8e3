//! An archive that is open to be searched.
ghost use Rattle.std.specs.Prelude.{◌≡◌, ◌≢◌, [], length, MatchOption};
ghost use Rattle.std.proofs.Props.{props};
ghost use Rattle.ix_manifest.specs.ManifestText.{IsManifest, view_of};
ghost use Rattle.ix_removals.specs.RemovalsText.{removals_text};
ghost use Rattle.ix_archive.specs.Layouts.{IsRemovalsText};

use ix_manifest::Manifest;
use ix_removals::Removals;

/// An archive that is open to be searched: all that its manifest names. What other programs do to the folder meanwhile
/// changes nothing of it.
#[derive(Drop)]
pub struct Opened<S> {
    /// The manifest.
    pub manifest: Manifest,
    /// The removals.
    pub removals: Removals,
    /// The files of the segments, in the order of the manifest.
    pub sources: Vec<S>,
    ghost each_opened: { length sources.items ≡ length manifest.segments.items },
    ghost lawful: { IsManifest (view_of manifest) } by { Prim.hlevel props },
    ghost has_segment: { manifest.segments.items ≢ [] },
    ghost listed: { MatchOption manifest.removals (removals ≡ [])
        (λ line. IsRemovalsText removals line (removals_text removals)) } by { Prim.hlevel props },
}
