//! Archives: what is added, removed and found, and what is rejected.

use super::disk::Disk;
use super::session::play;
use std::test::Fail;

/// Two documents are added, and removed by their names; one is added again under its name.
const GROWING: &str = r"$ put c1 1\tred fox\n
$ put c2 2\tfox\n
$ ix search A fox
! ix: file 1: Read(A)
$ ix add A c1
$ ix search A fox
1
$ ix add A c2
$ ix search A fox
1
2
$ ix search A 'NOT red'
2
$ ix search A blue
[1]
$ ix search --trust A fox
1
2
$ ix remove A 1
$ ix search A fox
2
$ ix search A 'NOT red'
2
$ ix remove A nobody
[1]
$ ix remove A 1
[1]
$ ix add A --workers 1 c1 --block=7
$ ix search A red
1
$ put nothing
$ ix add A nothing
$ ix search A fox
2
1
$ put gone 2\x0d\n\n1\nnobody\n
$ ix remove --names gone A
$ ix search A fox
[1]
$ ix remove A --names=gone
[1]
$ ix search A 'x AND'
! ix: query 3: End
";

/// The manifest of the format's example: a document was added, removed, and added again.
const EXAMPLE: &str = r"$ put d d\tA a\n
$ ix add A d
$ ix remove A d
$ ix add A d
$ show A removals-2
1\td
$ show A manifest
ix archive 1
next 4
segment 1 1 81 00ffc31fc55912fdb80dd284cb1082b69937a6916e6bb9b1a12e125d74642d7b
segment 3 1 81 00ffc31fc55912fdb80dd284cb1082b69937a6916e6bb9b1a12e125d74642d7b
removals 2 1 4 8a862f3a7f0988c3673be18794e38ecc1008c11631ccac6cab3719446b46abe9
end 06efff910f2c108fe31add4f6c93cf8071008d8138cf7f7687d20e4d07c77d57
";

/// What is no change of an archive, and leaves it as it was.
const REJECTED: &str = r"$ put c1 1\tred fox\n
$ put the the\n
$ put bad 3 red\n
$ put latin \xff\n
$ ix add --stop the A c1
$ ix add --stop c1 A c1
! ix: stop 1: NotOneWord(1)
$ put fox fox\n
$ ix add --stop fox A c1
! ix: archive 6: Stop
$ ix add A bad
! ix: collection 3: NoTab(1)
$ ix add A none
! ix: file 1: Read(none)
$ ix remove --names none A
! ix: file 1: Read(none)
$ ix remove --names latin A
! ix: file 3: NotUtf8(latin)
$ ix remove A
! ix: arguments refused
$ ix remove --names c1 A 1
! ix: arguments refused
$ ix add --stop - A -
! ix: arguments refused
$ ix add --stop the A c1
$ ix search A the
! ix: query 7: OnlyStopWords
$ ix search A fox
1
1
$ ix terms A re*
! ix: file 1: Read(A)
$ ix check A
A\tfile 1: Read
[2]
$ add-file B notes
$ ix add B c1
! ix: archive 2: NoManifest
$ ix remove B 1
! ix: archive 2: NoManifest
$ ix search B fox
! ix: archive 2: NoManifest
$ show B segment-1
no such file
";

#[test]
fn archives_that_grow(rt: HostRuntime) -> Result<(), Fail> {
    for session in [GROWING, EXAMPLE, REJECTED] {
        play(&rt, &mut Disk::new(rt.alloc())?, "", session)?;
    }
    Ok(())
}
