//! What `ix live` prints.

/// Scripts, and what is printed of each. Nothing is printed of a group that was stopped.
pub const LIVE: &str = r#"$ put c1 1\tred fox\n
$ put c2 2\tfox\n
$ put grown add c1\nask fox\npublish\nask fox\nadd c2\nask fox\npublish\nask NOT red
$ ix live grown
0\tfox
1\tfox
1
1\tfox
1
1\tNOT red
2
$ ix live grown --searchers 64 --workers=1 --bytes 1
0\tfox
1\tfox
1
1\tfox
1
1\tNOT red
2
$ put removed add c1\nadd c2\npublish\nremove 0\nask fox\npublish\nask fox\nask NOT red\nadd c1\npublish\nask red\n
$ ix live removed
2\tfox
1
2
1\tfox
2
1\tNOT red
2
1\tred
1
$ ix live none-at-all
[1]
$ put asked add c1\npublish\nask "fox red"\n
$ ix live asked
0\t"fox red"
[1]
$ put number add c1\npublish\nask fox\npublish\nask red\nremove 7\n
$ ix live number
1\tfox
1
! ix: live 4: Number(7)
$ put line add c1\nask fox\nsay x\n
$ ix live line
! ix: script 1: Line(3)
$ put query add c1\nask "a\n
$ ix live query
! ix: script 2: Query(2, OpenQuote)
$ ix live --stop=stop line
! ix: script 1: Line(3)
$ put stopped add c1\nask to\n
$ ix live --stop=stop stopped
! ix: script 2: Query(2, OnlyStopWords)
$ put missing publish\nadd a\x1bb\n
$ ix live missing
! ix: file 1: Read(a\x1bb)
$ put room add five\n
$ fail 2 Memory
$ ix live room
! ix: memory 1: Memory
$ put fault add no-tab\n
$ ix live fault
! ix: collection 3: NoTab(1)
$ ix live --stop=two-words no-such
! ix: stop 1: NotOneWord(1)
$ ix live --stop=two-words --block=1 --bytes=1 grown
! ix: arguments refused
$ ix live --searchers=65 grown
! ix: arguments refused
$ ix live bytes
! ix: file 3: NotUtf8(bytes)
$ ix live no-such
! ix: file 1: Read(no-such)
"#;
