//! The cut of a collection whose runs are kept in memory: fine enough that no worker waits long for the others.

ghost use Rattle.std.specs.Prelude.{◌≡◌, ◌<◌, map};
ghost use Rattle.ix_text.specs.Docs.{named_text};
ghost use Rattle.ix_build.specs.Balanced.{balanced_cut, blocks_among, counted_bytes, share};
ghost use Rattle.ix_build.specs.Blocks.{IsNoCoarser, cut_number};

use crate::plan::Cut;
use ix_text::Doc;

/// How many blocks each of several workers gets, if the texts are long enough: so all workers end at about the same time,
/// although some blocks take longer than others.
const BLOCKS_EACH: usize = 8;

/// The least bytes of text for each block, since each further run slows the merge.
const LEAST_BYTES: usize = 1 << 19;

/// The cut into blocks, or a finer one if some of several workers would have too few of its blocks.
pub(crate) fn balanced_cut(docs: &[Doc<'_>], cut: Cut, workers: usize) -> Cut
    requires { 0 < cut_number cut }
    ensures exact { result ≡ balanced_cut cut workers (map named_text docs.now) }
    ensures some { 0 < cut_number result }
    ensures no_coarser { IsNoCoarser cut result }
    ensures alone { workers < 2 → result ≡ cut }
{
    if workers < 2 {
        return cut;
    }
    let bytes = text_bytes(docs);
    let blocks = blocks_among(workers, bytes);
    match cut {
        Cut::Docs(most) => Cut::Docs(most.min(share(docs.len(), blocks))),
        Cut::Bytes(most) => Cut::Bytes(most.min(share(bytes, blocks))),
    }
}

/// The bytes of the texts together.
fn text_bytes(docs: &[Doc<'_>]) -> usize
    ensures { result ≡ counted_bytes (map named_text docs.now) }
{
    let mut bytes: usize = 0;
    for doc in docs {
        bytes = bytes.saturating_add(doc.text.len());
    }
    bytes
}

/// Into how many blocks texts of this many bytes are cut for this many workers.
fn blocks_among(workers: usize, bytes: usize) -> usize
    ensures exact { result ≡ blocks_among workers bytes }
{
    workers.saturating_mul(BLOCKS_EACH).min(bytes / LEAST_BYTES)
}

/// How many of `count` a block gets if they are shared out among this many blocks: at least one, and for fewer than two
/// blocks as many as the cut allows.
fn share(count: usize, blocks: usize) -> u32
    ensures exact { result ≡ share count blocks }
    ensures some { 0 < result }
{
    if blocks < 2 {
        return u32::MAX;
    }
    let each = (count.saturating_sub(1) / blocks).saturating_add(1);
    u32::try_from(each).unwrap_or(u32::MAX)
}
