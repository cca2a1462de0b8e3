//! What `ix build` writes, and what it refuses.

/// Plans that have one index, plans that are none, and what is refused before the output is created, and afterwards. The
/// words are read before the collection, and the collection before a run is kept.
pub const BUILDING: &str = r"$ ix build five new
$ cmp new five2.ix
$ ix build --block 1 --workers 3 five new
$ cmp new five2.ix
$ ix build --block=2 --workers=1 five new
$ cmp new five2.ix
$ ix build --block=2 --workers=3 five new
$ cmp new five2.ix
$ ix build five new --workers 64 --block 2
$ cmp new five2.ix
$ ix build five new --block 1024
$ cmp new five2.ix
$ ix build --bytes 1 --workers 3 five new
$ cmp new five2.ix
$ ix build --bytes=3 five new
$ cmp new five2.ix
$ ix build --bytes=4 --workers=1 five new
$ cmp new five2.ix
$ size new
119
$ ix build none-at-all new
$ size new
64
$ put one-word d\tA a\n
$ ix build one-word new
$ size new
81
$ ix build --stop stop one new
$ size new
174
$ ix build --block 0 five other
! ix: arguments refused
$ ix build --block 268435457 five other
! ix: arguments refused
$ ix build --bytes 0 five other
! ix: arguments refused
$ ix build --bytes 268435457 five other
! ix: arguments refused
$ ix build --block=2 --bytes=4 five other
! ix: arguments refused
$ ix build --workers 0 five other
! ix: arguments refused
$ ix build --workers 65 five other
! ix: arguments refused
$ ix build --runs=a --runs=a five other
! ix: arguments refused
$ ix ask --runs=a five y
! ix: arguments refused
$ ix build --stop two-words no-tab other
! ix: stop 1: NotOneWord(1)
$ ix build --runs=no/such/folder no-tab none
! ix: collection 3: NoTab(1)
$ ix build no-such other
! ix: file 1: Read(no-such)
$ size other
no such file
$ fail 2
$ ix build five none
! ix: file 2: Write(none)
$ fail 3
$ ix build five none
! ix: file 2: Write(none)
$ room 9
$ ix build five full
! ix: build 3: Write
$ size full
no such file
$ room 4096
$ ix build five five
! ix: file 4: Same(five)
$ ix build --stop stop five stop
! ix: file 4: Same(stop)
$ ix build --stop - - other
! ix: arguments refused
$ put run-0000000000 a\tx\n
$ ix build --runs=. run-0000000000 other
! ix: file 4: Same(run-0000000000)
$ ix build --runs=. five run-0000000000
! ix: file 4: Same(run-0000000000)
$ ix build --runs=. --block=1 five run-0000000004
! ix: file 4: Same(run-0000000004)
$ put run-0000000000 to\n
$ ix build --runs=. --stop run-0000000000 five other
! ix: file 4: Same(run-0000000000)
$ size run-0000000000
3
$ size other
no such file
$ ix build --runs=. --block=1 five run-0000000005
$ cmp run-0000000005 five2.ix
$ size run-0000000000
no such file
$ ix build --runs=runs --block=2 --workers=3 five new
$ cmp new five2.ix
$ ix build --runs=runs --bytes=4 --workers=1 five new
$ cmp new five2.ix
$ ix build --stop=stop one stopped
$ ix build --stop=stop one new --runs=runs
$ cmp new stopped
$ ix build --runs=no/such/folder five other
! ix: build 2: Spill(0)
";
