//! The program over files of the system.

use ix_build::Unwatched;
use ix_command::command_over;
use ix_files::{Files, SystemFiles};
use std::sync::Wait;
use std::test::Fail;
use std::thread::Threads;
use std::{env, fs, process};

/// A path of this process in the folder of temporary files, with this word in its name.
fn path_of(rt: &HostRuntime, word: &str) -> Result<String, Fail> {
    let folder = env::temp_dir(rt)?;
    let process = process::id(rt.process());
    Ok(format!(in rt.alloc(); "{}/ix-{word}-{process}", folder.as_path().display())?)
}

/// What the program prints for these words, on its error output behind its standard output, and its status.
fn told<R: AllocGlobal + Threads + Wait + Sync, F: Files>(
    rt: &R,
    files: &mut F,
    words: &[&str],
) -> Result<(Vec<u8>, u8), Fail> {
    let mut out = Vec::new(rt.alloc());
    let mut err = Vec::new(rt.alloc());
    let status = command_over(rt, rt.alloc(), files, &Unwatched, words, &mut out, &mut err);
    out.extend_from_slice(&err)?;
    Ok((out, status))
}

#[test]
fn a_file_of_the_system(rt: HostRuntime) -> Result<(), Fail> {
    let path = path_of(&rt, "five")?;
    fs::write(&rt, path.as_str(), b"a\tx y\nb\ty\nc\t\nd\ty x y\ne\tx\n")?;
    let mut files = SystemFiles { rt: &rt };
    let (out, status) = told(&rt, &mut files, &["ask", path.as_str(), "NOT x"])?;
    fs::remove_file(&rt, path.as_str())?;
    assert!(rt; out.as_slice() == b"b\nc\n".as_slice() && status == 0);
    Ok(())
}

/// A device has more bytes than a text may have, and no end.
#[test]
fn a_text_without_an_end(rt: HostRuntime) -> Result<(), Fail> {
    let script = path_of(&rt, "script")?;
    fs::write(&rt, script.as_str(), b"add /dev/zero\n")?;
    let mut files = SystemFiles { rt: &rt };
    let asked = told(&rt, &mut files, &["ask", "/dev/zero", "x"])?;
    let added = told(&rt, &mut files, &["live", script.as_str()])?;
    fs::remove_file(&rt, script.as_str())?;
    for (out, status) in [asked, added] {
        assert!(rt; out.as_slice() == b"ix: collection 1: TooLarge\n".as_slice() && status == 2);
    }
    Ok(())
}
