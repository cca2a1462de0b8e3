//! Many documents, cut into runs in several ways: one index text. And gaps that grow by a byte.

use super::merged;
use std::alloc::Global;
use std::test::Fail;

/// A thousand and ten documents of a few words each: one word that all have, one that each has alone, some that only some have,
/// words that are fronts of one another, and long words that begin alike.
fn documents(alloc: Global) -> Result<String, Fail> {
    let mut text = String::new(alloc);
    for number in 0u32..1010 {
        let some = number % 7;
        let few = number % 3;
        let last = if number % 5 == 0 { "a aa" } else { "aab" };
        let line = format!(in alloc; "n{number}\tall w{number} s{some} the all aa{few} {last}")?;
        text.push_str(&line)?;
        let long = format!(in alloc; " beginningalike{some} beginningalikes{few}\n")?;
        text.push_str(&long)?;
    }
    Ok(text)
}

/// So many blocks of these documents without the word `the`, those of every third block first.
fn cut(alloc: Global, blocks: u16) -> Result<String, Fail> {
    let blocks = blocks as u32;
    let mut told = String::new(alloc);
    for turn in 0u32..3 {
        for place in 0..blocks {
            if place % 3 == turn {
                let from = 1010 * place / blocks;
                let to = 1010 * (place + 1) / blocks;
                let block = format!(in alloc; "{from}-{to}/the ")?;
                told.push_str(&block)?;
            }
        }
    }
    Ok(told)
}

#[test]
fn cut_into_runs(rt: HostRuntime) -> Result<(), Fail> {
    let alloc = rt.alloc();
    let text = documents(alloc)?;
    let mut whole = Vec::new(alloc);
    for blocks in [1u16, 2, 3, 64, 1010] {
        let (out, outcome) = merged(&rt, alloc, &text, &cut(alloc, blocks)?)?;
        assert!(rt; outcome.as_str() == "Ok" && out.len() > 64, "{blocks}");
        assert!(rt; whole.is_empty() || out == whole, "{blocks}");
        whole = out;
    }
    let gap = cut(alloc, 1010)?.replace(alloc, "1005-1006/the ", "")?;
    let (out, outcome) = merged(&rt, alloc, &text, &gap)?;
    assert!(rt; outcome.as_str() == "Gap(1005)" && out.is_empty());
    Ok(())
}

/// So many documents, the first of them with the word, and behind them one document with the word x.
fn two_apart(alloc: Global, word: &str, documents: u32) -> Result<String, Fail> {
    let mut text = format!(in alloc; "n0\t{word}\n")?;
    for number in 1..documents {
        let line = format!(in alloc; "n{number}\t\n")?;
        text.push_str(&line)?;
    }
    text.push_str("last\tx\n")?;
    Ok(text)
}

/// How many documents stand before the one with the word x, the word of the first of them, if it has one, and the list of
/// x, behind which comes the name of the first document, n0.
const GAPS: [(u32, &str, &[u8]); 5] = [
    (126, "", b"\xff\x81\x81\x82n0"),
    (127, "", b"\x01\x80\x81\x81\x82n0"),
    (16383, "", b"\x01\x00\x80\x81\x81\x82n0"),
    (127, "x", b"\x81\x81\x81\xff\x81\x81\x82n0"),
    (16384, "x", b"\x81\x81\x81\x01\x00\x80\x81\x81\x82n0"),
];

#[test]
fn gaps_that_grow_by_a_byte(rt: HostRuntime) -> Result<(), Fail> {
    let alloc = rt.alloc();
    for (count, word, list) in GAPS {
        let text = two_apart(alloc, word, count)?;
        let last = count.wrapping_add(1);
        let blocks = format!(in alloc; "{count}-{last} 0-{count}")?;
        let (out, _) = merged(&rt, alloc, &text, &blocks)?;
        let lists = out.get(8..).ok_or("no lists")?;
        assert!(rt; lists.starts_with(list), "{count} {word}");
    }
    Ok(())
}
