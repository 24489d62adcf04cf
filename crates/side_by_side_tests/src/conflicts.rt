// Scripts of sessions side by side that write and read the same objects, with what they report. It
// is worked out by hand.

use crate::row::Row;

/// Both write the box; the second one is refused as often as it tries.
const WRITE_OVER_WRITE: Row = Row {
    order: &[(3, 0, 1), (2, 0, 2), (3, 2, 5), (4, 0, 0)],
    script: "\
session DataCurator
run
Box at: 1 put: 5
%
commit
session DataCurator
run
Box at: 1 put: 6
%
commit
commit
abort
printit
Box at: 1
%
session DataCurator
printit
Box at: 1
%
",
    report: "\
session 2 DataCurator
[0] login view 1
[1] ok
[2] committed 2 view 2
[3] logout
session 3 DataCurator
[0] login view 1
[1] ok
[2] refused 1
C1 object 1:1 commit 2
[3] refused 1
C1 object 1:1 commit 2
[4] aborted view 2
[5] 5
[6] logout
session 4 DataCurator
[0] login view 2
[1] 5
[2] logout
commits 2
1 session 1 transaction 1 view 0
2 session 2 transaction 1 view 1
",
};

/// Each reads what the other one writes.
const READS_CROSSED: Row = Row {
    order: &[(3, 0, 1), (2, 0, 2), (3, 2, 2), (4, 0, 0)],
    script: "\
session DataCurator
run
Cup at: 1 put: (Box at: 1)
%
commit
session DataCurator
run
Box at: 1 put: (Cup at: 1)
%
commit
session DataCurator
printit
Box at: 1
%
printit
Cup at: 1
%
",
    report: "\
session 2 DataCurator
[0] login view 1
[1] ok
[2] committed 2 view 2
[3] logout
session 3 DataCurator
[0] login view 1
[1] ok
[2] refused 1
C2 object 1:2 commit 2
[3] logout
session 4 DataCurator
[0] login view 2
[1] nil
[2] nil
[3] logout
commits 2
1 session 1 transaction 1 view 0
2 session 2 transaction 1 view 1
",
};

/// The same, where neither is checked for what it only read: both are committed.
const READS_CROSSED_UNCHECKED: Row = Row {
    order: &[(3, 0, 2), (2, 0, 3), (3, 3, 3), (4, 0, 0)],
    script: "\
session DataCurator
mode no_rw_checks
run
Cup at: 1 put: (Box at: 1)
%
commit
session DataCurator
mode no_rw_checks
run
Box at: 1 put: (Cup at: 1)
%
commit
session DataCurator
printit
Box at: 1
%
printit
Cup at: 1
%
",
    report: "\
session 2 DataCurator
[0] login view 1
[1] mode no_rw_checks
[2] ok
[3] committed 2 view 2
[4] logout
session 3 DataCurator
[0] login view 1
[1] mode no_rw_checks
[2] ok
[3] committed 3 view 3
[4] logout
session 4 DataCurator
[0] login view 3
[1] nil
[2] nil
[3] logout
commits 3
1 session 1 transaction 1 view 0
2 session 2 transaction 1 view 1 no_rw_checks
3 session 3 transaction 1 view 1 no_rw_checks
",
};

/// Two accounts, of which either may go below nothing as long as both together don't. Each session
/// looks at both and draws from one. Where neither is checked for what it only read both draw, and
/// together the accounts are below nothing.
const DRAWN_TWICE: Row = Row {
    order: &[(2, 0, 2), (4, 0, 2), (3, 0, 3), (4, 3, 3), (5, 0, 0)],
    script: "\
session DataCurator
run
Box at: 1 put: 60. Cup at: 1 put: 60
%
commit
session DataCurator
mode no_rw_checks
run
(Box at: 1) + (Cup at: 1) >= 100 ifTrue: [Box at: 1 put: (Box at: 1) - 100]
%
commit
session DataCurator
mode no_rw_checks
run
(Box at: 1) + (Cup at: 1) >= 100 ifTrue: [Cup at: 1 put: (Cup at: 1) - 100]
%
commit
session DataCurator
printit
Box at: 1
%
printit
Cup at: 1
%
",
    report: "\
session 2 DataCurator
[0] login view 1
[1] ok
[2] committed 2 view 2
[3] logout
session 3 DataCurator
[0] login view 2
[1] mode no_rw_checks
[2] ok
[3] committed 3 view 3
[4] logout
session 4 DataCurator
[0] login view 2
[1] mode no_rw_checks
[2] ok
[3] committed 4 view 4
[4] logout
session 5 DataCurator
[0] login view 4
[1] -40
[2] -40
[3] logout
commits 4
1 session 1 transaction 1 view 0
2 session 2 transaction 1 view 1
3 session 3 transaction 1 view 2 no_rw_checks
4 session 4 transaction 1 view 2 no_rw_checks
",
};

/// The mode of one session isn't that of another one.
const OTHERS_MODE: Row = Row {
    order: &[(3, 0, 1), (2, 0, 3), (3, 2, 2), (4, 0, 0)],
    script: "\
session DataCurator
mode no_rw_checks
run
Cup at: 1 put: (Box at: 1)
%
commit
session DataCurator
run
Box at: 1 put: (Cup at: 1)
%
commit
session DataCurator
printit
Box at: 1
%
",
    report: "\
session 2 DataCurator
[0] login view 1
[1] mode no_rw_checks
[2] ok
[3] committed 2 view 2
[4] logout
session 3 DataCurator
[0] login view 1
[1] ok
[2] refused 1
C2 object 1:2 commit 2
[3] logout
session 4 DataCurator
[0] login view 2
[1] nil
[2] logout
commits 2
1 session 1 transaction 1 view 0
2 session 2 transaction 1 view 1 no_rw_checks
",
};

/// A refused commit is made after the session has said that what it only read isn't checked.
const MODE_AFTER_REFUSAL: Row = Row {
    order: &[(3, 0, 1), (2, 0, 2), (3, 2, 5), (4, 0, 0)],
    script: "\
session DataCurator
run
Cup at: 1 put: 7
%
commit
session DataCurator
run
Box at: 1 put: (Cup at: 1)
%
commit
mode no_rw_checks
commit
printit
Box at: 1
%
session DataCurator
printit
Cup at: 1
%
",
    report: "\
session 2 DataCurator
[0] login view 1
[1] ok
[2] committed 2 view 2
[3] logout
session 3 DataCurator
[0] login view 1
[1] ok
[2] refused 1
C2 object 1:2 commit 2
[3] mode no_rw_checks
[4] committed 3 view 3
[5] nil
[6] logout
session 4 DataCurator
[0] login view 3
[1] 7
[2] logout
commits 3
1 session 1 transaction 1 view 0
2 session 2 transaction 1 view 1
3 session 3 transaction 1 view 1 no_rw_checks
",
};

/// Without checks of what is only read each may write what the other has read, and the two swap the
/// box and the cup.
const SWAPPED: Row = Row {
    order: &[(2, 0, 2), (4, 0, 2), (3, 0, 2), (4, 3, 3), (5, 0, 0)],
    script: "\
session DataCurator
run
Box at: 1 put: 5. Cup at: 1 put: 7
%
commit
session DataCurator
run
Cup at: 1 put: (Box at: 1)
%
commit
session DataCurator
mode no_rw_checks
run
Box at: 1 put: (Cup at: 1)
%
commit
session DataCurator
printit
Box at: 1
%
printit
Cup at: 1
%
",
    report: "\
session 2 DataCurator
[0] login view 1
[1] ok
[2] committed 2 view 2
[3] logout
session 3 DataCurator
[0] login view 2
[1] ok
[2] committed 3 view 3
[3] logout
session 4 DataCurator
[0] login view 2
[1] mode no_rw_checks
[2] ok
[3] committed 4 view 4
[4] logout
session 5 DataCurator
[0] login view 4
[1] 7
[2] 5
[3] logout
commits 4
1 session 1 transaction 1 view 0
2 session 2 transaction 1 view 1
3 session 3 transaction 1 view 2
4 session 4 transaction 1 view 2 no_rw_checks
",
};

/// In that mode, too, of two who write the box one is refused, and a checkpoint changes nothing of
/// it.
const WRITE_OVER_WRITE_UNCHECKED: Row = Row {
    order: &[(3, 0, 3), (2, 0, 2), (3, 4, 7), (4, 0, 0)],
    script: "\
session DataCurator
run
Box at: 1 put: 5
%
commit
session DataCurator
mode no_rw_checks
run
Box at: 1 put: (Cup at: 1)
%
checkpoint
commit
checkpoint
mode full_checks
commit
session DataCurator
printit
Box at: 1
%
",
    report: "\
session 2 DataCurator
[0] login view 1
[1] ok
[2] committed 2 view 2
[3] logout
session 3 DataCurator
[0] login view 1
[1] mode no_rw_checks
[2] ok
[3] checkpoint 1
[4] refused 1
C1 object 1:1 commit 2
[5] checkpoint 2
[6] mode full_checks
[7] refused 1
C1 object 1:1 commit 2
[8] logout
session 4 DataCurator
[0] login view 2
[1] 5
[2] logout
commits 2
1 session 1 transaction 1 view 0
2 session 2 transaction 1 view 1
",
};

/// One writes twenty objects and reads twenty others that the other session writes, and is refused
/// with forty conflicts; then both count by twenty counters, and all counts stand.
const FORTY_CONFLICTS: Row = Row {
    order: &[
        (2, 0, 2),
        (5, 0, 1),
        (3, 0, 2),
        (5, 2, 4),
        (4, 0, 2),
        (5, 5, 5),
        (6, 0, 0),
    ],
    script: "\
session DataCurator
run
| a |
a := Array new: 20. Globals at: #Ours put: a. 1 to: 20 do: [:i | a at: i put: (Array new: 1)].
a := Array new: 20. Globals at: #Theirs put: a. 1 to: 20 do: [:i | a at: i put: (Array new: 1)].
a := Array new: 20. Globals at: #Counts put: a. 1 to: 20 do: [:i | a at: i put: RcCounter new]
%
commit
session DataCurator
run
Ours do: [:each | each at: 1 put: 5].
Theirs do: [:each | each at: 1 put: 5]
%
commit
session DataCurator
run
Counts do: [:each | each increment]
%
commit
session DataCurator
run
Ours do: [:each | each at: 1 put: 6].
Theirs do: [:each | each at: 1]
%
commit
abort
run
Counts do: [:each | each increment]
%
commit
session DataCurator
printit
(Ours inject: 0 into: [:sum :each | sum + (each at: 1)])
+ (Counts inject: 0 into: [:sum :each | sum + each value])
%
",
    report: "\
session 2 DataCurator
[0] login view 1
[1] ok
[2] committed 2 view 2
[3] logout
session 3 DataCurator
[0] login view 2
[1] ok
[2] committed 3 view 3
[3] logout
session 4 DataCurator
[0] login view 3
[1] ok
[2] committed 4 view 4
[3] logout
session 5 DataCurator
[0] login view 2
[1] ok
[2] refused 40
C1 object 2:2 commit 3
C1 object 2:3 commit 3
C1 object 2:4 commit 3
C1 object 2:5 commit 3
C1 object 2:6 commit 3
C1 object 2:7 commit 3
C1 object 2:8 commit 3
C1 object 2:9 commit 3
C1 object 2:10 commit 3
C1 object 2:11 commit 3
C1 object 2:12 commit 3
C1 object 2:13 commit 3
C1 object 2:14 commit 3
C1 object 2:15 commit 3
C1 object 2:16 commit 3
C1 object 2:17 commit 3
C1 object 2:18 commit 3
C1 object 2:19 commit 3
C1 object 2:20 commit 3
C1 object 2:21 commit 3
C2 object 2:23 commit 3
C2 object 2:24 commit 3
C2 object 2:25 commit 3
C2 object 2:26 commit 3
C2 object 2:27 commit 3
C2 object 2:28 commit 3
C2 object 2:29 commit 3
C2 object 2:30 commit 3
C2 object 2:31 commit 3
C2 object 2:32 commit 3
C2 object 2:33 commit 3
C2 object 2:34 commit 3
C2 object 2:35 commit 3
C2 object 2:36 commit 3
C2 object 2:37 commit 3
C2 object 2:38 commit 3
C2 object 2:39 commit 3
C2 object 2:40 commit 3
C2 object 2:41 commit 3
C2 object 2:42 commit 3
[3] aborted view 3
[4] ok
[5] committed 5 view 5
[6] logout
session 6 DataCurator
[0] login view 5
[1] 140
[2] logout
commits 5
1 session 1 transaction 1 view 0
2 session 2 transaction 1 view 1
3 session 3 transaction 1 view 2
4 session 4 transaction 1 view 3
5 session 5 transaction 2 view 3
",
};

/// All of them.
pub(crate) const ROWS: [Row; 9] = [
    WRITE_OVER_WRITE,
    READS_CROSSED,
    READS_CROSSED_UNCHECKED,
    DRAWN_TWICE,
    OTHERS_MODE,
    MODE_AFTER_REFUSAL,
    SWAPPED,
    WRITE_OVER_WRITE_UNCHECKED,
    FORTY_CONFLICTS,
];
