// Scripts of sessions that commit while others are in a view, with what they report. It is worked
// out by hand.

use crate::row::Row;

/// What another session commits after a commit isn't seen in the view that began with that, but in
/// the next one.
const COMMITTED_AFTER: Row = Row {
    order: &[(3, 0, 2), (2, 0, 2), (3, 3, 5), (4, 0, 0)],
    script: "\
session DataCurator
run
Cup at: 1 put: 7
%
commit
session DataCurator
run
Box at: 1 put: 5
%
commit
printit
Cup at: 1
%
commit
printit
Cup at: 1
%
session DataCurator
printit
(Box at: 1) + (Cup at: 1)
%
",
    report: "\
session 2 DataCurator
[0] login view 2
[1] ok
[2] committed 3 view 3
[3] logout
session 3 DataCurator
[0] login view 1
[1] ok
[2] committed 2 view 2
[3] nil
[4] committed unchanged at 2 view 3
[5] 7
[6] logout
session 4 DataCurator
[0] login view 3
[1] 12
[2] logout
commits 3
1 session 1 transaction 1 view 0
2 session 3 transaction 1 view 1
3 session 2 transaction 1 view 2
",
};

/// The view that begins with a commit has what another session committed since the one before.
const COMMITTED_MEANWHILE: Row = Row {
    order: &[(3, 0, 1), (2, 0, 2), (3, 2, 3)],
    script: "\
session DataCurator
run
Cup at: 1 put: 7
%
commit
session DataCurator
run
Box at: 1 put: 5
%
commit
printit
(Box at: 1) + (Cup at: 1)
%
",
    report: "\
session 2 DataCurator
[0] login view 1
[1] ok
[2] committed 2 view 2
[3] logout
session 3 DataCurator
[0] login view 1
[1] ok
[2] committed 3 view 3
[3] 12
[4] logout
commits 3
1 session 1 transaction 1 view 0
2 session 2 transaction 1 view 1
3 session 3 transaction 1 view 1
",
};

/// A session goes on in its view while another one commits twice. It sees both once it has aborted.
const ABORTED_MEANWHILE: Row = Row {
    order: &[(3, 0, 1), (2, 0, 2), (3, 2, 2), (2, 3, 4), (3, 3, 6)],
    script: "\
session DataCurator
run
Cup at: 1 put: 7
%
commit
run
Box at: 1 put: 5
%
commit
session DataCurator
printit
Cup at: 1
%
printit
Cup at: 1
%
printit
Box at: 1
%
abort
printit
(Box at: 1) + (Cup at: 1)
%
abort
",
    report: "\
session 2 DataCurator
[0] login view 1
[1] ok
[2] committed 2 view 2
[3] ok
[4] committed 3 view 3
[5] logout
session 3 DataCurator
[0] login view 1
[1] nil
[2] nil
[3] nil
[4] aborted view 3
[5] 12
[6] aborted view 3
[7] logout
commits 3
1 session 1 transaction 1 view 0
2 session 2 transaction 1 view 1
3 session 2 transaction 2 view 2
",
};

/// What has only read commits unchanged, and sees the new value then.
const ONLY_READ: Row = Row {
    order: &[(3, 0, 1), (2, 0, 2), (3, 2, 3), (4, 0, 0)],
    script: "\
session DataCurator
run
Box at: 1 put: 5
%
commit
session DataCurator
printit
Box at: 1
%
commit
printit
Box at: 1
%
session DataCurator
printit
Box at: 1
%
",
    report: "\
session 2 DataCurator
[0] login view 1
[1] ok
[2] committed 2 view 2
[3] logout
session 3 DataCurator
[0] login view 1
[1] nil
[2] committed unchanged at 1 view 2
[3] 5
[4] logout
session 4 DataCurator
[0] login view 2
[1] 5
[2] logout
commits 2
1 session 1 transaction 1 view 0
2 session 2 transaction 1 view 1
",
};

/// Alice reads the box while her right is taken away: a right that was used is read.
const RIGHT_TAKEN: Row = Row {
    order: &[(2, 0, 2), (4, 0, 1), (3, 0, 2), (4, 2, 4), (5, 0, 0)],
    script: "\
session DataCurator
run
| s | UserProfile newUser: #Alice. s := Segment new. s worldAuthorization: #read.
Globals at: #Seg put: s. Box assignToSegment: s
%
commit
session DataCurator
run
Seg worldAuthorization: #none
%
commit
session Alice
printit
UserGlobals at: #y put: 1. Box at: 1
%
commit
abort
printit
UserGlobals at: #y put: 1. Box at: 1
%
session Alice
printit
y
%
printit
Box at: 1
%
",
    report: "\
session 2 DataCurator
[0] login view 1
[1] ok
[2] committed 2 view 2
[3] logout
session 3 DataCurator
[0] login view 2
[1] ok
[2] committed 3 view 3
[3] logout
session 4 Alice
[0] login view 2
[1] nil
[2] refused 1
C2 object 2:4 commit 3
[3] aborted view 3
[4] error E10 no read right: 1:1
[5] logout
session 5 Alice
[0] login view 3
[1] error E2 undefined variable: y
[2] error E10 no read right: 1:1
[3] logout
commits 3
1 session 1 transaction 1 view 0
2 session 2 transaction 1 view 1
3 session 3 transaction 1 view 2
",
};

/// All of them.
pub(crate) const ROWS: [Row; 5] = [
    COMMITTED_AFTER,
    COMMITTED_MEANWHILE,
    ABORTED_MEANWHILE,
    ONLY_READ,
    RIGHT_TAKEN,
];
