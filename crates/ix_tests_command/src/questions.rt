//! What `ix ask`, `ix search` and `ix terms` print.

/// Queries of the five documents.
pub const OF_FIVE: &str = r#"? y
a
b
d
? Y
a
b
d
? z
[1]
? x AND y
a
d
? "y x"
d
? x NEAR/1 y
a
d
? y NEAR/2 y
d
? y NEAR/1 y
[1]
? NOT x
b
c
? NOT x AND NOT y
c
? x OR y AND NOT x
a
b
d
e
? y*
a
b
d
? x y
! ix: query 2: Unexpected(2)
? a AND
! ix: query 3: End
? ( )
! ix: query 2: Unexpected(2)
? "a
! ix: query 4: OpenQuote
? a NEAR/0 b
! ix: query 5: BadNear
? a NEAR/05 b
! ix: query 5: BadNear
? a NEAR/65536 b
! ix: query 5: BadNear
? ...
! ix: query 6: NoWord
? **
! ix: query 8: BareStar
? "a*"
! ix: query 9: StarInPhrase
? e+mail NEAR/2 x
! ix: query 10: NearWord
"#;

/// Small collections, and what is found in them.
pub const WORKED: &str = r#"$ put mail d\tmy e+mail\n
$ ix ask mail e+mail
d
$ ix ask mail '"my mail"'
[1]
$ ix ask one --stop=stop --block=1 '"flights to london"'
d
$ ix ask --stop stop one '"flights london"'
[1]
$ ix ask --stop stop one '"to london"'
d
$ ix ask --stop stop one to
! ix: query 7: OnlyStopWords
$ put - to\n
$ ix ask --stop - one to
! ix: query 7: OnlyStopWords
$ put letters d\ta b c d\n
$ ix ask letters 'a NEAR/3 d'
d
$ ix ask letters 'd NEAR/3 a'
d
$ ix ask letters 'a NEAR/2 d'
[1]
$ put twice 1\ta\n2\ta a\n
$ ix ask twice 'a NEAR/1 a'
2
$ put split 1\tx new\n2\tyork y\n
$ ix ask split '"new york"'
[1]
$ ix ask split 'NOT new'
2
$ put four 1\ta c\n2\tb\n3\tb c\n4\tc\n
$ ix ask four 'a OR b AND NOT c'
1
2
$ ix ask four '(a OR b) AND NOT c'
2
$ put an 1\ta an\n2\tb an\n
$ ix ask an a*
1
2
$ ix ask an *
! ix: query 8: BareStar
$ ix ask none-at-all a
[1]
$ ix ask none-at-all --workers=64 'NOT a'
[1]
$ ix search empty.ix a
[1]
$ ix search empty.ix 'NOT a'
[1]
$ ix search five.ix ''
! ix: query 1: Empty
$ ix ask five '  '
! ix: query 1: Empty
$ ix build --stop stop one new
$ ix search new '"to london"'
d
$ ix search new 'to NEAR/2 london'
! ix: query 10: NearWord
"#;

/// Terms that patterns find.
pub const TERMS: &str = r"$ put red d\tred redo retired\n
$ ix build red red.ix
$ size red.ix
155
$ ix terms red.ix red*
red\t1
redo\t1
$ ix terms red.ix re*d
red\t1
retired\t1
$ ix terms red.ix re*ed
retired\t1
$ ix terms red.ix q*
[1]
$ ix terms red.ix red
! ix: pattern 1: NoStar
$ ix terms red.ix *
! ix: pattern 2: BareStar
$ ix terms red.ix **
! ix: pattern 2: BareStar
$ ix search red.ix 'red NEAR/2 retired'
d
$ put an 1\ta an\n2\tb an\n
$ ix build an an.ix
$ ix terms an.ix a*
a\t1
an\t2
$ ix terms five.ix y*
y\t3
$ ix terms five2.ix y*
y\t3
$ ix build --stop stop one new
$ ix terms new t*
[1]
$ ix terms empty.ix a*
[1]
";

/// Files and words that are refused. The index is looked at before the query, and a stop list before the collection.
pub const REFUSED: &str = r"$ ix ask bytes y
! ix: collection 2: NotUtf8(2)
$ ix ask no-tab y
! ix: collection 3: NoTab(1)
$ put no-name \ty\n
$ ix ask no-name y
! ix: collection 4: Name(1)
$ put no-line-end a\tb
$ ix ask no-line-end y
! ix: collection 5: NoLineEnd(1)
$ ix ask no/such/file y
! ix: file 1: Read(no/such/file)
$ fail 1 Memory
$ ix ask five y
! ix: memory 1: Memory
$ ix ask --stop two-words no-tab x
! ix: stop 1: NotOneWord(1)
$ ix ask --stop no-stop no/such/file y
! ix: file 1: Read(no-stop)
$ ix ask --stop - - y
! ix: arguments refused
$ ix ask --stop bytes one x
! ix: file 3: NotUtf8(bytes)
$ ix search five 'x y'
! ix: index 1: Short
$ put text a\tThis text is no index, and it has more than sixty-four bytes.\n
$ ix search text 'x y'
! ix: index 2: Magic
$ ix search cut.ix 'x y'
! ix: index 3: Trailer
$ ix terms range.ix y
! ix: index 15: PositionRange
$ ix search doubled.ix 'x y'
! ix: index 16: Doubled
$ ix terms without.ix y
! ix: index 17: Grams
$ fail 1 Memory
$ ix search five.ix y
! ix: memory 1: Memory
$ ix search no-such y
! ix: file 1: Read(no-such)
$ ix ask five
! ix: arguments refused
$ ix search --stop stop five.ix x
! ix: arguments refused
$ ix
! ix: arguments refused
$ ix help find
! ix: arguments refused
";
