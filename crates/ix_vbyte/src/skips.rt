//! Places in a coded list at which a walk may go on.
ghost use Rattle.std.specs.Prelude.{◌≡◌, ◌≤◌, ℕ, drop, length, Contains, IfSome};

/// A place between two postings of a coded list.
#[derive(Clone, Copy)]
pub struct Skip {
    /// One above the document before it.
    pub next: u32,
    /// How many postings are left from it on.
    pub left: u32,
    /// How many bytes they take.
    pub size: usize,
}

/// The last of the places before which no document stands that is as high as the one named, and those behind it: of
/// places that stand in the order of their list.
#[inline]
pub(crate) fn pass_skips(skips: &[Skip], document: u32) -> (Option<Skip>, &[Skip])
    ensures passed { IfSome result.0
        (λ skip. Contains skips.now skip × (skip.next ≤ document)) }
    ensures ahead { (n : ℕ) × (result.1.now ≡ drop n skips.now) }
{
    let count = count_passed(skips, document);
    let (passed, ahead) = skips.split_at(count);
    match passed.last() {
        Some(skip) if skip.next <= document => (Some(*skip), ahead),
        _ => (None, ahead),
    }
}

/// How many of the places stand before the first that has a document as high as the one named before it.
#[inline]
fn count_passed(skips: &[Skip], document: u32) -> usize
    ensures { result ≤ length skips.now }
{
    skips
        .iter()
        .position(|skip| skip.next > document)
        .unwrap_or(skips.len())
}
