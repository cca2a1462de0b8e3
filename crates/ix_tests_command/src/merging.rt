//! What `ix run`, `ix merge` and `ix upgrade` write, and what they refuse.

/// Runs, their merges and those of groups of them, in which documents count from 0, and of indexes. An index stands behind
/// what is named before it, in either version; a run without documents adds none, and behind `--` any word is a path. Each
/// run is opened before the runs are compared.
pub const MERGING: &str = r"$ ix run ab run
$ cmp run 0.run
$ ix run --first 2 cd run
$ cmp run 2.run
$ ix run e run --first=4
$ cmp run 4.run
$ put wanted PIIXRUN1\0\0\0\0\x01\0\0\0\x81\x82to\x81d\x83\x87flights\x81\x83\x81\x81\x81\x86london\x81\x83\x81\x81\x83\x80
$ ix run --stop stop one stopped
$ cmp stopped wanted
$ size stopped
49
$ put wanted PIIXRUN1\0\0\0\0\0\0\0\0\x80\x80
$ ix run none-at-all no-documents
$ cmp no-documents wanted
$ put wanted PIIXRUN1\0\0\0\x10\0\0\0\0\x80\x80
$ ix run --first 268435456 none-at-all last
$ cmp last wanted
$ ix merge index last
$ size index
64
$ ix merge index 4.run 0.run 2.run
$ cmp index five2.ix
$ ix merge -- index 4.run 2.run no-documents 0.run
$ cmp index five2.ix
$ ix run cd first-cd
$ ix run --first 2 e third-e
$ ix merge four 0.run 2.run
$ ix merge three third-e first-cd
$ ix merge index four 4.run
$ cmp index five2.ix
$ ix merge index 0.run three
$ cmp index five2.ix
$ ix merge index empty.ix five.ix
$ cmp index five2.ix
$ ix merge index 4.run four
! ix: merge 1: Gap(0)
$ ix run --first 3 e 3.run
$ ix merge index 0.run 3.run
! ix: merge 1: Gap(2)
$ ix merge index 4.run 0.run
! ix: merge 1: Gap(2)
$ ix merge index 0.run 2.run 4.run 0.run
! ix: merge 2: Overlap(0)
$ ix run --first=2 --stop=stop one later
$ ix merge index later 0.run
! ix: merge 3: StopDiffers
$ ix merge index cut.run
! ix: merge 4: Source(0, Number(Cut))
$ room 9
$ ix merge full 0.run
! ix: merge 6: Write
$ room 4096
$ ix merge new 0.run cut.ix
! ix: index 3: Trailer
$ ix merge new five 0.run
! ix: merge 4: Source(0, Magic)
$ ix merge new 0.run cut-head.run
! ix: merge 4: Source(1, Number(Cut))
$ ix merge new 0.run 0.run no-such
! ix: file 1: Read(no-such)
$ ix merge new
! ix: arguments refused
$ ix run --first 268435456 e new
! ix: run 1: TooLarge
$ ix run --first 268435457 e new
! ix: arguments refused
$ ix run --stop two-words no-tab new
! ix: stop 1: NotOneWord(1)
$ size new
no such file
$ fail 2
$ ix merge none 0.run
! ix: file 2: Write(none)
$ room 9
$ ix run ab full
! ix: file 2: Write(full)
$ size full
no such file
$ room 4096
$ ix run ab ab
! ix: file 4: Same(ab)
$ ix merge new - -
! ix: arguments refused
$ ix merge 0.run 0.run 2.run 4.run
$ cmp 0.run five2.ix
";

/// Indexes of version 1 that become those of version 2. One of version 2 gives the same bytes.
pub const UPGRADING: &str = r"$ ix upgrade empty.ix new
$ ix build none-at-all built
$ cmp new built
$ ix upgrade one.ix new
$ put one-word d\tA a\n
$ ix build one-word built
$ cmp new built
$ ix upgrade new newer
$ cmp newer built
$ put stopped.ix PIIX0001\x81\x81\x81\x81\x81\x83\x82to\x81d\x83\x87flights\x81\x83\x86london\x81\x83\x83$fl\x81\x81\x83$lo\x81\x82\x83don\x81\x82\x83fli\x81\x81\x83ght\x81\x81\x83hts\x81\x81\x83igh\x81\x81\x83lig\x81\x81\x83lon\x81\x82\x83ndo\x81\x82\x83on$\x81\x82\x83ond\x81\x82\x83ts$\x81\x81\x06\0\0\0\0\0\0\0\x03\0\0\0\0\0\0\0\x03\0\0\0\0\0\0\0\x13\0\0\0\0\0\0\0N\0\0\0\0\0\0\0\x01\0\0\0\x02\0\0\0PIIXEND1
$ size stopped.ix
173
$ ix upgrade stopped.ix new
$ ix build --stop stop one built
$ cmp new built
$ ix upgrade five.ix new
$ cmp new five2.ix
$ ix upgrade five2.ix new
$ cmp new five2.ix
$ ix upgrade ab other
! ix: index 1: Short
$ ix upgrade no-such other
! ix: file 1: Read(no-such)
$ size other
no such file
$ fail 2
$ ix upgrade five.ix none
! ix: file 2: Write(none)
$ room 9
$ ix upgrade five.ix full
! ix: file 2: Write(full)
$ room 4096
$ ix upgrade five.ix five.ix
$ cmp five.ix five2.ix
";
