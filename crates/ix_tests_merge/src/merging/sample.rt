//! The five documents, in any order of their runs, and sources that are refused.

use super::{SAMPLE, merge_texts, merged, sample_text};
use ix_file::Index;
use std::test::Fail;

/// The blocks of the five documents, in each order.
const ORDERS: &str = "\
0-2 2-4 4-5
0-2 4-5 2-4
2-4 0-2 4-5
2-4 4-5 0-2
4-5 0-2 2-4
4-5 2-4 0-2
";

#[test]
fn runs_in_any_order(rt: HostRuntime) -> Result<(), Fail> {
    for blocks in ORDERS.lines() {
        let (out, outcome) = merged(&rt, rt.alloc(), SAMPLE, blocks)?;
        assert!(rt;
            outcome.as_str() == "Ok" && out.as_slice() == sample_text(),
            "{blocks}"
        );
    }
    for blocks in ["", "5-5@268435456"] {
        let (out, outcome) = merged(&rt, rt.alloc(), SAMPLE, blocks)?;
        assert!(rt; outcome.as_str() == "Ok" && out.len() == 64, "{blocks}");
    }
    Ok(())
}

/// Blocks of the five documents, and why they are not merged.
const REFUSALS: &str = "\
4-5 0-2 -> Gap(2)
4-5 0-2 5-5@268435456 -> Gap(2)
0-2 4-5@3 -> Gap(2)
2-4 4-5 -> Gap(0)
0-1@1 1-2@1 -> Gap(0)
0-2 2-4 4-5 0-2 -> Overlap(0)
0-2 2-4@1 -> Overlap(1)
4-5 0-2 2-4/x 2-4 -> Overlap(2)
0-2/to 2-4 -> StopDiffers
0-2 2-4 4-5/x -> StopDiffers
0-2 5-5@7/x -> StopDiffers
0-2 4-5/x -> Gap(2)
";

#[test]
fn refusals_before_a_byte_is_written(rt: HostRuntime) -> Result<(), Fail> {
    for row in REFUSALS.lines() {
        let (blocks, want) = row.split_once(" -> ").ok_or("no refusal")?;
        let (out, outcome) = merged(&rt, rt.alloc(), SAMPLE, blocks)?;
        assert_eq!(rt; outcome.as_str(), want, "{blocks}");
        assert!(rt; out.is_empty(), "{blocks}");
    }
    Ok(())
}

#[test]
fn too_many_tokens(rt: HostRuntime) -> Result<(), Fail> {
    let alloc = rt.alloc();
    let most: &[u8] = b"PIIXRUN1\0\0\0\0\x01\0\0\0\x80\x81a\x01\0\0\0\x80\x80";
    let none: &[u8] = b"PIIXRUN1\x01\0\0\0\x01\0\0\0\x80\x81b\x80\x80";
    let one: &[u8] = b"PIIXRUN1\x01\0\0\0\x01\0\0\0\x80\x81b\x81\x80";
    let mut out = Vec::new(alloc);
    let refused = merge_texts(alloc, vec![in alloc; one, most]?, &mut out)?;
    assert_eq!(rt; refused.as_str(), "TooLarge");
    assert!(rt; out.is_empty());
    let accepted = merge_texts(alloc, vec![in alloc; none, most]?, &mut out)?;
    assert_eq!(rt; accepted.as_str(), "Ok");
    Ok(())
}

/// Collections of one document, how long their index texts are, and where in these which dictionary stands.
const DICTIONARIES: [(&str, usize, usize, &[u8]); 4] = [
    (
        "d\tred redo retired\n",
        155,
        20,
        b"\x83red\x81\x83\x83\x81o\x81\x83\x82\x85tired\x81\x83",
    ),
    (
        "d\ta ab abc abcd abcde\n",
        169,
        26,
        b"\x81a\x81\x83\x81\x81b\x81\x83\x82\x81c\x81\x83\x83\x81d\x81\x83\x85abcde\x81\x83",
    ),
    (
        "d\tè é\n",
        97,
        17,
        b"\x82\xc3\xa8\x81\x83\x81\x81\xa9\x81\x83",
    ),
    (
        "d\ta b c d e f g h i\n",
        190,
        38,
        b"\x81a\x81\x83\x80\x81b\x81\x83\x80\x81c\x81\x83\x80\x81d\x81\x83\x81e\x81\x83\x80\x81f",
    ),
];

#[test]
fn terms_that_begin_alike(rt: HostRuntime) -> Result<(), Fail> {
    for (text, len, start, dictionary) in DICTIONARIES {
        let (out, _) = merged(&rt, rt.alloc(), text, "0-1")?;
        assert_eq!(rt; out.len(), len);
        let behind = out.get(start..).ok_or("no dictionary")?;
        assert!(rt; behind.starts_with(dictionary), "{text}");
        assert!(rt; Index::open(rt.alloc(), &out).is_ok(), "{text}");
    }
    Ok(())
}
