//! Sessions of real sizes: a collection of a hundred thousand documents; long paths, queries and groups.

use super::disk::Disk;
use super::session::{FILES, play};
use std::alloc::Global;
use std::test::Fail;

/// A hundred thousand documents and some more, each with a word of its own behind eight times the one that all have. Its
/// list has more than a million bytes.
fn numbered(alloc: Global) -> Result<String, Fail> {
    let mut text = String::new(alloc);
    for number in 0u32..100_100 {
        let line = format!(in alloc; "n{number}\tx x x x x x x x w{number:06}\n")?;
        text.push_str(&line)?;
    }
    Ok(text)
}

/// An index of more than two MiB, and the merge of it alone.
const LARGE: &str = r"$ ix build large large.ix
$ size large.ix
3720165
$ ix ask large w100099
n100099
$ ix search large.ix w100099
n100099
$ ix merge again large.ix
$ cmp again large.ix
";

/// A pattern with ten thousand terms.
fn many_terms(alloc: Global) -> Result<String, Fail> {
    let mut session = String::from_str(alloc, "$ ix terms large.ix w00*\n")?;
    for number in 0u32..10_000 {
        let row = format!(in alloc; "w{number:06}\\t1\n")?;
        session.push_str(&row)?;
    }
    Ok(session)
}

#[test]
fn a_hundred_thousand_documents(rt: HostRuntime) -> Result<(), Fail> {
    let alloc = rt.alloc();
    let mut disk = Disk::new(alloc)?;
    disk.files.put("large", numbered(alloc)?.as_bytes())?;
    play(&rt, &mut disk, "", LARGE)?;
    play(&rt, &mut disk, "", &many_terms(alloc)?)?;
    disk.files.fail_at(0, false);
    let kept = "$ ix build --runs=runs large again\n$ cmp again large.ix\n";
    play(&rt, &mut disk, "", kept)?;
    // The run of each 1024 documents is created, ended and opened.
    assert!(rt; disk.files.calls() > 98 * 3);
    Ok(())
}

/// What is printed of a path of which there is no file, and of the same path once there is one.
const LONG_PATH: &str = r"$ ix ask PATH y
! ix: file 1: Read(PATH)
$ room 0
$ ix run ab PATH
! ix: file 2: Write(PATH)
$ put script add PATH\npublish\nask red\n
$ ix live script
! ix: file 1: Read(PATH)
$ put PATH d\tred\n
$ ix live script
1\tred
d
";

#[test]
fn long_paths_queries_and_groups(rt: HostRuntime) -> Result<(), Fail> {
    let alloc = rt.alloc();
    let mut disk = Disk::new(alloc)?;
    play(&rt, &mut disk, "", FILES)?;
    for bytes in [64, 200, 5000] {
        let path = "p".repeat(alloc, bytes)?;
        play(
            &rt,
            &mut disk,
            "",
            &LONG_PATH.replace(alloc, "PATH", &path)?,
        )?;
    }
    // The longest word that a term may be.
    let word = "w".repeat(alloc, 255)?;
    let document = format!(in alloc; "$ put long d\\t{word}\\n\n$ ix ask long {word}\nd\n")?;
    play(&rt, &mut disk, "", &document)?;
    let words = "x OR ".repeat(alloc, 2100)?;
    let query = format!(in alloc; "$ ix ask five '{words}x'\na\nd\ne\n")?;
    play(&rt, &mut disk, "", &query)?;
    // The error of a group is that of its step, also behind many others.
    let asks = "ask y\\n".repeat(alloc, 1100)?;
    let group = format!(in alloc; "$ put script add ab\\npublish\\n{asks}remove 7\\nadd no\n")?;
    play(&rt, &mut disk, "", &group)?;
    play(
        &rt,
        &mut disk,
        "",
        "$ ix live script\n! ix: live 4: Number(7)\n",
    )
}
