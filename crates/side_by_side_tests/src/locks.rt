// Scripts of sessions side by side that lock the same object, with what they report. It is worked
// out by hand.

use crate::row::Row;

/// The box is changed and locked: a lock of a changed object helps no commit, and keeps others
/// out until the logout.
const DIRTY_LOCK: Row = Row {
    order: &[
        (4, 0, 0),
        (2, 0, 2),
        (4, 1, 3),
        (3, 0, 1),
        (4, 4, 4),
        (5, 0, 0),
    ],
    script: "\
session DataCurator
run
Box at: 1 put: 5
%
commit
session DataCurator
lock read Box
session DataCurator
lock write Box
run
Box at: 1 put: 9
%
commit
session DataCurator
lock read Box
unlock Box
printit
Box at: 1
%
",
    report: "\
session 2 DataCurator
[0] login view 1
[1] ok
[2] committed 2 view 2
[3] logout
session 3 DataCurator
[0] login view 2
[1] denied read 1:1 by session 4 write
[2] logout
session 4 DataCurator
[0] login view 1
[1] locked write 1:1 dirty
[2] ok
[3] refused 1
C1 object 1:1 commit 2
[4] logout
session 5 DataCurator
[0] login view 2
[1] locked read 1:1 clean
[2] unlocked 1:1
[3] 5
[4] logout
commits 2
1 session 1 transaction 1 view 0
2 session 2 transaction 1 view 1
",
};

/// A session that was denied a lock has it when its holder has left.
const LOCK_AFTER_LOGOUT: Row = Row {
    order: &[
        (2, 0, 0),
        (3, 0, 0),
        (2, 1, 2),
        (3, 1, 3),
        (2, 3, 3),
        (3, 4, 4),
        (2, 4, 5),
    ],
    script: "\
session DataCurator
run
Box at: 1 put: 5
%
commit
lock read Box
lock read Box
unlock Box
session DataCurator
lock write Box
run
Box at: 1 put: 9
%
commit
",
    report: "\
session 2 DataCurator
[0] login view 1
[1] ok
[2] committed 2 view 2
[3] denied read 1:1 by session 3 write
[4] locked read 1:1 clean
[5] unlocked 1:1
[6] logout
session 3 DataCurator
[0] login view 1
[1] locked write 1:1 dirty
[2] ok
[3] refused 1
C1 object 1:1 commit 2
[4] logout
commits 2
1 session 1 transaction 1 view 0
2 session 2 transaction 1 view 1
",
};

/// Both hold the box for reading: neither may write it, until the other one gives it back.
const BOTH_LOCKED: Row = Row {
    order: &[
        (2, 0, 0),
        (3, 0, 0),
        (2, 1, 1),
        (3, 1, 3),
        (2, 2, 2),
        (3, 4, 4),
        (4, 0, 0),
    ],
    script: "\
session DataCurator
lock read Box
unlock Box
session DataCurator
lock read Box
run
Box at: 1 put: 4
%
commit
commit
session DataCurator
printit
Box at: 1
%
",
    report: "\
session 2 DataCurator
[0] login view 1
[1] locked read 1:1 clean
[2] unlocked 1:1
[3] logout
session 3 DataCurator
[0] login view 1
[1] locked read 1:1 clean
[2] ok
[3] refused 1
C3 object 1:1 session 2
[4] committed 2 view 2
[5] logout
session 4 DataCurator
[0] login view 2
[1] 4
[2] logout
commits 2
1 session 1 transaction 1 view 0
2 session 3 transaction 1 view 1
",
};

/// All of them.
pub(crate) const ROWS: [Row; 3] = [DIRTY_LOCK, LOCK_AFTER_LOGOUT, BOTH_LOCKED];
