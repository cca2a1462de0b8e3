//! Each call once at its result and once at an error, and a buffer that is too short.

use crate::found::tell;
use crate::handle::Handle;
use crate::{
    Found, ix_ask, ix_build, ix_index_close, ix_index_names, ix_index_open, ix_index_search,
    ix_index_terms, ix_merge, ix_run, ix_search, ix_terms,
};
use ix_ask::EngineRefusal;
use ix_text::CollectionError;
use std::alloc::Global;
use std::process::Abort;
use std::test::Fail;

const FIVE: &[u8] = b"a\tx y\nb\ty\nc\t\nd\ty x y\ne\tx\n";

/// What no call has written yet.
const NOTHING: Found = Found {
    count: 9,
    size: 9,
    area: 9,
    number: 9,
};

/// A status, how many were found, and what is in the buffer.
#[derive(Drop)]
struct Row<'a>(u32, usize, &'a [u8]);

/// Compares a status, a count and a buffer with a row.
fn expect(rt: &impl Abort, status: u32, found: &Found, out: &[u8], row: &Row<'_>) {
    assert_eq!(rt; status, row.0);
    assert_eq!(rt; found.count, row.1);
    assert_eq!(rt; found.size, row.2.len());
    assert!(rt; out.len() >= found.size);
    assert!(rt; out.starts_with(row.2));
}

#[test]
fn a_collection_is_asked(rt: HostRuntime) -> Result<(), Fail> {
    let mut out = [0; 40];
    let mut found = NOTHING;
    let status = ix_ask(rt.alloc(), FIVE, b"", b"y", &mut out, &mut found);
    expect(&rt, status, &found, &out, &Row(0, 3, b"a\nb\nd\n"));
    let status = ix_ask(rt.alloc(), FIVE, b"", b"y x", &mut out, &mut found);
    expect(
        &rt,
        status,
        &found,
        &out,
        &Row(1, 0, b"query 2: Unexpected(2)"),
    );
    assert_eq!(rt; (found.area, found.number), (3, 2));
    let status = ix_ask(rt.alloc(), b"a", b"", b"y", &mut out, &mut found);
    expect(
        &rt,
        status,
        &found,
        &out,
        &Row(1, 0, b"collection 3: NoTab(1)"),
    );
    let status = ix_ask(rt.alloc(), FIVE, b"\xff", b"y", &mut out, &mut found);
    assert_eq!(rt; (status, found.area), (2, 2));
    let status = ix_ask(rt.alloc(), FIVE, b"", b"\xff", &mut out, &mut found);
    assert_eq!(rt; (status, found.area), (2, 3));
    Ok(())
}

#[test]
fn a_short_buffer_gets_the_front(rt: HostRuntime) -> Result<(), Fail> {
    let mut out = [7; 4];
    let mut found = NOTHING;
    let status = ix_ask(rt.alloc(), FIVE, b"", b"y", &mut out[..3], &mut found);
    assert_eq!(rt; (status, found.count, found.size), (0, 3, 6));
    assert!(rt; out == *b"a\nb\x07");
    Ok(())
}

#[test]
fn the_error_of_a_stop_text_is_its_own(rt: HostRuntime) -> Result<(), Fail> {
    let row = Row(1, 0, b"stop 1: NotOneWord(1)");
    let mut out = [0; 40];
    let mut found = NOTHING;
    let status = ix_ask(rt.alloc(), FIVE, b"x y", b"y", &mut out, &mut found);
    expect(&rt, status, &found, &out, &row);
    let status = ix_build(rt.alloc(), FIVE, b"x y", &mut out, &mut found);
    expect(&rt, status, &found, &out, &row);
    let status = ix_run(rt.alloc(), FIVE, b"x y", 0, &mut out, &mut found);
    expect(&rt, status, &found, &out, &row);
    Ok(())
}

#[test]
fn a_long_line_is_put_out_whole(rt: HostRuntime) -> Result<(), Fail> {
    let refusal = EngineRefusal::Collection(CollectionError::NoLineEnd(usize::MAX));
    let line = b"collection 5: NoLineEnd(18446744073709551615)";
    let mut out = [0; 60];
    let mut found = NOTHING;
    let status = tell(&refusal, &mut out, &mut found);
    expect(&rt, status, &found, &out, &Row(1, 0, line));
    Ok(())
}

#[test]
fn the_error_of_an_index_text_is_its_own(rt: HostRuntime) -> Result<(), Fail> {
    let text = [b'?'; 200];
    let row = Row(1, 0, b"index 2: Magic");
    let mut out = [0; 40];
    let mut found = NOTHING;
    let status = ix_search(rt.alloc(), &text, b"y", &mut out, &mut found);
    expect(&rt, status, &found, &out, &row);
    let status = ix_terms(rt.alloc(), &text, b"x*", &mut out, &mut found);
    expect(&rt, status, &found, &out, &row);
    let mut index = Handle::closed(rt.alloc());
    let status = ix_index_open(rt.alloc(), &mut index, &text, &mut out, &mut found);
    expect(&rt, status, &found, &out, &row);
    ix_index_close(rt.alloc(), &mut index);
    Ok(())
}

#[test]
fn an_index_is_built_and_asked(rt: HostRuntime) -> Result<(), Fail> {
    let mut text = [0; 1000];
    let mut out = [0; 40];
    let mut found = NOTHING;
    let status = ix_build(rt.alloc(), FIVE, b"", &mut text, &mut found);
    assert_eq!(rt; (status, found.count), (0, 0));
    assert!(rt; found.size <= text.len());
    let index = &text[..found.size];
    let status = ix_search(rt.alloc(), index, b"\"y x\"", &mut out, &mut found);
    expect(&rt, status, &found, &out, &Row(0, 1, b"d\n"));
    let status = ix_terms(rt.alloc(), index, b"x*", &mut out, &mut found);
    expect(&rt, status, &found, &out, &Row(0, 1, b"x\t3\n"));
    let status = ix_search(rt.alloc(), index, b"(", &mut out, &mut found);
    assert_eq!(rt; (status, found.area), (1, 3));
    let status = ix_terms(rt.alloc(), index, b"*", &mut out, &mut found);
    expect(
        &rt,
        status,
        &found,
        &out,
        &Row(1, 0, b"pattern 2: BareStar"),
    );
    let status = ix_search(rt.alloc(), FIVE, b"y", &mut out, &mut found);
    assert_eq!(rt; (status, found.area), (1, 5));
    let status = ix_build(rt.alloc(), b"a", b"", &mut out, &mut found);
    expect(
        &rt,
        status,
        &found,
        &out,
        &Row(1, 0, b"collection 3: NoTab(1)"),
    );
    Ok(())
}

#[test]
fn a_run_is_made_and_merged(rt: HostRuntime) -> Result<(), Fail> {
    let mut run = [0; 1000];
    let mut out = [0; 40];
    let mut found = NOTHING;
    let status = ix_run(rt.alloc(), b"a", b"", 0, &mut out, &mut found);
    expect(
        &rt,
        status,
        &found,
        &out,
        &Row(1, 0, b"collection 3: NoTab(1)"),
    );
    let status = ix_run(rt.alloc(), FIVE, b"", 0, &mut run, &mut found);
    assert_eq!(rt; (status, found.count), (0, 0));
    assert!(rt; found.size <= run.len());
    let run = &run[..found.size];
    let status = ix_merge(rt.alloc(), run, &[run.len()], &mut out, &mut found);
    assert_eq!(rt; (status, found.count), (0, 0));
    let status = ix_merge(rt.alloc(), run, &[1], &mut out, &mut found);
    expect(&rt, status, &found, &out, &Row(4, 0, b""));
    let status = ix_merge(rt.alloc(), FIVE, &[FIVE.len()], &mut out, &mut found);
    expect(
        &rt,
        status,
        &found,
        &out,
        &Row(1, 0, b"merge 4: Source(0, Magic)"),
    );
    let status = ix_merge(rt.alloc(), b"PIIXRUN1\0\0\0\0", &[12], &mut out, &mut found);
    expect(
        &rt,
        status,
        &found,
        &out,
        &Row(1, 0, b"merge 4: Source(0, Number(Cut))"),
    );
    Ok(())
}

#[test]
fn an_index_is_opened_once_and_asked_often(rt: HostRuntime) -> Result<(), Fail> {
    let mut text = [0; 1000];
    let mut out = [0; 40];
    let mut found = NOTHING;
    let status = ix_build(rt.alloc(), FIVE, b"", &mut text, &mut found);
    assert_eq!(rt; status, 0);
    assert!(rt; found.size <= text.len());
    let text = &mut text[..found.size];
    let mut index = Handle::closed(rt.alloc());
    let status = ix_index_search(rt.alloc(), &mut index, b"y", &mut out, &mut found);
    expect(&rt, status, &found, &out, &Row(3, 0, b""));
    let status = ix_index_open(rt.alloc(), &mut index, text, &mut out, &mut found);
    expect(&rt, status, &found, &out, &Row(0, 0, b""));
    text.fill(0);
    for _ in 0..2 {
        let status = ix_index_search(rt.alloc(), &mut index, b"\"y x\"", &mut out, &mut found);
        expect(&rt, status, &found, &out, &Row(0, 1, b"d\n"));
        let status = ix_index_terms(rt.alloc(), &mut index, b"x*", &mut out, &mut found);
        expect(&rt, status, &found, &out, &Row(0, 1, b"x\t3\n"));
        let status = ix_index_search(rt.alloc(), &mut index, b"(", &mut out, &mut found);
        expect(&rt, status, &found, &out, &Row(1, 0, b"query 3: End"));
        let status = ix_index_terms(rt.alloc(), &mut index, b"\xff", &mut out, &mut found);
        assert_eq!(rt; (status, found.area), (2, 4));
        let status = ix_index_names(rt.alloc(), &mut index, &mut out, &mut found);
        expect(&rt, status, &found, &out, &Row(0, 5, b"a\nb\nc\nd\ne\n"));
    }
    let status = ix_index_open(rt.alloc(), &mut index, FIVE, &mut out, &mut found);
    expect(&rt, status, &found, &out, &Row(1, 0, b"index 1: Short"));
    let status = ix_index_terms(rt.alloc(), &mut index, b"x*", &mut out, &mut found);
    expect(&rt, status, &found, &out, &Row(3, 0, b""));
    ix_index_close(rt.alloc(), &mut index);
    assert!(rt; !index.is_open);
    Ok(())
}
