//! Removals.
ghost use Rattle.std.specs.Prelude.{◌<◌};

use crate::{Removals, RemovalsError, are_names, is_name, read};
use std::alloc::{AllocError, Global};
use std::test::Fail;

/// Three removals.
const WORKED: &str = "7\ta.txt\n3\tb.txt\n18446744073709551615\tnotes/2\n";

/// The error of bytes that are no removals.
fn fault(alloc: Global, bytes: &[u8]) -> Option<RemovalsError> {
    read(alloc, bytes).err()
}

/// Removals with these names too, if each can be one.
fn with_names(
    alloc: Global,
    removals: &Removals,
    names: &[&str],
    below: u64,
) -> Result<Removals, AllocError>
    requires { 0 < below }
{
    if are_names(names) {
        removals.with(alloc, names, below)
    } else {
        removals.with(alloc, &[], below)
    }
}

#[test]
fn removals_are_read_and_written(rt: HostRuntime) -> Result<(), Fail> {
    let removals = read(rt.alloc(), WORKED.as_bytes())?;
    assert!(rt; removals.len() == 3 && !removals.is_empty());
    assert_eq!(rt; removals.text(rt.alloc())?.as_str(), WORKED);
    for (name, number, removed) in [
        ("a.txt", 6, true),
        ("a.txt", 7, false),
        ("b.txt", 2, true),
        ("b.txt", 3, false),
        ("notes/2", 18446744073709551614, true),
        ("notes/2", 18446744073709551615, false),
        ("notes", 0, false),
        ("", 0, false),
    ] {
        assert!(rt;
            removals.is_removed(name, number) == removed,
            "{name} {number}"
        );
    }
    let none = read(rt.alloc(), b"")?;
    assert!(rt; none.is_empty() && none.text(rt.alloc())?.is_empty());
    Ok(())
}

#[test]
fn names_are_removed_in_any_order(rt: HostRuntime) -> Result<(), Fail> {
    let one = with_names(rt.alloc(), &Removals::new(rt.alloc()), &["b", "a", "b"], 3)?;
    assert_eq!(rt; one.text(rt.alloc())?.as_str(), "3\ta\n3\tb\n");
    let two = with_names(rt.alloc(), &one, &["é", "b", "ab"], 5)?;
    assert_eq!(rt; two.text(rt.alloc())?.as_str(), "3\ta\n5\tab\n5\tb\n5\té\n");
    let three = with_names(rt.alloc(), &two, &["b"], 4)?;
    assert_eq!(rt; three.text(rt.alloc())?, two.text(rt.alloc())?);
    assert_eq!(rt; one.text(rt.alloc())?.as_str(), "3\ta\n3\tb\n");
    Ok(())
}

#[test]
fn an_error_names_the_first_line_that_is_wrong(rt: HostRuntime) -> Result<(), Fail> {
    for (text, line) in [
        ("1\ta\n1\ta\n", 2),
        ("1\tb\n1\ta\n", 2),
        ("1\ta\n2\tb\n01\tc\nx\n", 3),
        ("0\ta\n", 1),
        ("+1\ta\n", 1),
        ("18446744073709551616\ta\n", 1),
        ("1\ta\r\n1\ta\n", 2),
        ("1\ta\nb\n", 2),
        ("1\t\n", 1),
        ("1\ta\tb\n", 1),
        ("\ta\n", 1),
        ("\n", 1),
        ("1\ta\n\n", 2),
    ] {
        let fault = fault(rt.alloc(), text.as_bytes());
        assert_eq!(rt; fault, Some(RemovalsError::Line(line)), "{text}");
    }
    assert_eq!(rt;
        fault(rt.alloc(), b"1\ta\n1\tb\xff\n"),
        Some(RemovalsError::Line(2))
    );
    assert_eq!(rt;
        fault(rt.alloc(), b"1\ta\n\xc3"),
        Some(RemovalsError::Line(2))
    );
    assert!(rt; read(rt.alloc(), b"1\ta\n1\ta\r\n")?.is_removed("a\r", 0));
    Ok(())
}

#[test]
fn a_cut_text_ends_in_a_wrong_line(rt: HostRuntime) -> Result<(), Fail> {
    let bytes = WORKED.as_bytes();
    for end in 0..bytes.len() {
        let front = &bytes[..end];
        match front.last() {
            None | Some(b'\n') => {
                let removals = read(rt.alloc(), front)?;
                assert_eq!(rt; removals.text(rt.alloc())?.as_bytes(), front);
            }
            Some(_) => {
                let fault = fault(rt.alloc(), front);
                assert!(rt; matches!(fault, Some(RemovalsError::Line(1..=3))), "{end}");
            }
        }
    }
    Ok(())
}

#[test]
fn a_name_has_at_most_255_bytes(rt: HostRuntime) -> Result<(), Fail> {
    let mut name = String::new(rt.alloc());
    for _ in 0..255 {
        name.push('n')?;
    }
    assert!(rt; is_name(&name));
    let text = format!(in rt.alloc(); "1\t{name}\n")?;
    assert!(rt; read(rt.alloc(), text.as_bytes())?.is_removed(&name, 0));
    name.push('n')?;
    assert!(rt; !is_name(&name) && !is_name(""));
    let text = format!(in rt.alloc(); "1\t{name}\n")?;
    assert_eq!(rt;
        fault(rt.alloc(), text.as_bytes()),
        Some(RemovalsError::Line(1))
    );
    Ok(())
}

#[test]
fn many_names_are_removed_at_once(rt: HostRuntime) -> Result<(), Fail> {
    let mut texts: Vec<String> = Vec::new(rt.alloc());
    for number in 0..3_000u64 {
        texts.push(format!(in rt.alloc(); "{}", number.wrapping_mul(2654435761) % 1_000_003)?)?;
    }
    let mut names: Vec<&str> = Vec::new(rt.alloc());
    for text in &texts {
        names.push(text.as_str())?;
    }
    let one = with_names(rt.alloc(), &Removals::new(rt.alloc()), &names, 1)?;
    let two = with_names(rt.alloc(), &one, &names, 2)?;
    assert_eq!(rt; one.len(), 3_000);
    assert_eq!(rt; two.len(), 3_000);
    let text = two.text(rt.alloc())?;
    let again = read(rt.alloc(), text.as_bytes())?;
    assert_eq!(rt; again.text(rt.alloc())?, text);
    Ok(())
}
