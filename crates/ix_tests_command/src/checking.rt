//! Index files that are trusted, and index files that are checked.

use super::disk::Disk;
use super::session::{FILES, play, tell, words_of};
use std::test::Fail;

/// Questions that trust the index. A fault in a part that they do not read is not noticed.
pub const TRUSTING: &str = r"$ ix terms --trust five.ix y*
y\t3
$ ix terms five2.ix --trust *x*
x\t3
$ ix terms --trust five.ix q*
[1]
$ ix terms --trust five.ix y
! ix: pattern 1: NoStar
$ ix search range.ix b
! ix: index 15: PositionRange
$ ix search --trust range.ix b
[1]
$ ix terms range.ix b*
! ix: index 15: PositionRange
$ ix terms --trust range.ix b*
[1]
$ ix search --trust no-such y
! ix: file 1: Read(no-such)
$ ix terms --trust no-such y*
! ix: file 1: Read(no-such)
$ ix search --trust --trust five.ix y
! ix: arguments refused
";

/// Index files with a fault and without one.
pub const CHECKING: &str =
    r"$ put text a\tThis text is no index, and it has more than sixty-four bytes.\n
$ ix check five.ix
$ ix check one.ix five.ix five2.ix empty.ix
$ ix check five
five\tindex 1: Short
[2]
$ ix check one.ix cut.ix five.ix no-such
cut.ix\tindex 3: Trailer
no-such\tfile 1: Read
[2]
$ ix check text range.ix doubled.ix without.ix text
text\tindex 2: Magic
range.ix\tindex 15: PositionRange
doubled.ix\tindex 16: Doubled
without.ix\tindex 17: Grams
text\tindex 2: Magic
[2]
$ fail 1
$ ix check five.ix one.ix
five.ix\tfile 1: Read
[2]
$ fail 1 Memory
$ ix check five.ix cut.ix
! ix: memory 1: Memory
$ ix check - -
! ix: arguments refused
$ ix check
! ix: arguments refused
";

#[test]
fn path_with_a_control_character(rt: HostRuntime) -> Result<(), Fail> {
    let mut disk = Disk::new(rt.alloc())?;
    let mut told = String::new(rt.alloc());
    tell(&rt, &mut disk, &["check", "a\tb"], &mut told)?;
    assert_eq!(rt; told.as_str(), "a\\x09b\\tfile 1: Read\n[2]\n");
    Ok(())
}

#[test]
fn a_read_of_a_trusted_index_that_fails(rt: HostRuntime) -> Result<(), Fail> {
    let words = words_of(rt.alloc(), "search --trust five.ix y")?;
    let mut failed = 0;
    for number in 1..32 {
        let mut disk = Disk::new(rt.alloc())?;
        play(&rt, &mut disk, "", FILES)?;
        disk.files.fail_at(number, false);
        let mut told = String::new(rt.alloc());
        tell(&rt, &mut disk, &words, &mut told)?;
        if told.as_str() == "! ix: file 1: Read(five.ix)\n" {
            failed = number;
        } else {
            assert_eq!(rt; told.as_str(), "a\nb\nd\n");
        }
    }
    // The file was looked at and opened, and ranges of it were read.
    assert!(rt; failed >= 4);
    Ok(())
}
