// Scripts over a keeper whose disk fails once so many calls have gone well, each with the whole
// report that it has to give, worked out by hand.

/// How many calls go well; the script; its report.
pub(crate) type Halt = (u64, &'static str, &'static str);

/// The first commit that has something to store meets the failure. Its number would have been 1.
const FIRST_COMMIT: Halt = (
    0,
    "\
session DataCurator
commit
run
Globals at: #T put: 3
%
commit
commit
checkpoint
printit
T
%
lock write Globals
unlock Globals
lock read Globals
abort
commit
printit
T
%
session DataCurator
lock write Globals
run
Globals at: #T put: 4
%
commit
checkpoint
unlock Globals
session Nobody
commit
",
    "\
session 1 DataCurator
[0] login view 0
[1] committed unchanged at 0 view 0
[2] ok
[3] disk fault
[4] halted at 1
[5] halted at 1
[6] 3
[7] locked write 0:27 clean
[8] unlocked 0:27
[9] locked read 0:27 clean
[10] aborted view 0
[11] halted at 1
[12] error E2 undefined variable: T
[13] logout
session 2 DataCurator
[0] login view 0
[1] locked write 0:27 clean
[2] ok
[3] halted at 1
[4] halted at 1
[5] unlocked 0:27
[6] logout
session 3 Nobody
[0] no user at view 0
[1] not logged in
[2] not logged in
commits 0
",
);

/// A commit and a checkpoint go well, and the second commit meets the failure.
const THIRD_COMMIT: Halt = (
    2,
    "\
session DataCurator
run
Globals at: #T put: 3
%
commit
checkpoint
run
Globals at: #T put: 4
%
commit
commit
abort
printit
T
%
commit
session DataCurator
printit
T
%
lock write Globals
run
Globals at: #T put: 5
%
checkpoint
commit
printit
T
%
unlock Globals
",
    "\
session 1 DataCurator
[0] login view 0
[1] ok
[2] committed 1 view 1
[3] checkpoint 1
[4] ok
[5] disk fault
[6] halted at 2
[7] aborted view 1
[8] 3
[9] halted at 2
[10] logout
session 2 DataCurator
[0] login view 1
[1] 3
[2] locked write 0:27 clean
[3] ok
[4] halted at 2
[5] halted at 2
[6] 5
[7] unlocked 0:27
[8] logout
commits 1
1 session 1 transaction 1 view 0
",
);

/// A checkpoint meets the failure before there was a commit.
const FIRST_CHECKPOINT: Halt = (
    0,
    "\
session DataCurator
run
Globals at: #T put: 3
%
checkpoint
commit
checkpoint
printit
T
%
unlock Globals
lock read Globals
abort
commit
printit
T
%
session DataCurator
lock write Globals
commit
checkpoint
",
    "\
session 1 DataCurator
[0] login view 0
[1] ok
[2] disk fault
[3] halted at 0
[4] halted at 0
[5] 3
[6] not held 0:27
[7] locked read 0:27 clean
[8] aborted view 0
[9] halted at 0
[10] error E2 undefined variable: T
[11] logout
session 2 DataCurator
[0] login view 0
[1] locked write 0:27 clean
[2] halted at 0
[3] halted at 0
[4] logout
commits 0
",
);

/// Two commits go well, and the checkpoint after them meets the failure.
const THIRD_CHECKPOINT: Halt = (
    2,
    "\
session DataCurator
run
Globals at: #T put: 3
%
commit
lock read Globals
session DataCurator
run
Globals at: #T put: 4
%
commit
run
Globals at: #T put: 5
%
checkpoint
checkpoint
commit
printit
T
%
abort
printit
T
%
session DataCurator
lock write Globals
printit
T
%
commit
unlock Globals
",
    "\
session 1 DataCurator
[0] login view 0
[1] ok
[2] committed 1 view 1
[3] locked read 0:27 clean
[4] logout
session 2 DataCurator
[0] login view 1
[1] ok
[2] committed 2 view 2
[3] ok
[4] disk fault
[5] halted at 2
[6] halted at 2
[7] 5
[8] aborted view 2
[9] 4
[10] logout
session 3 DataCurator
[0] login view 2
[1] locked write 0:27 clean
[2] 4
[3] halted at 2
[4] unlocked 0:27
[5] logout
commits 2
1 session 1 transaction 1 view 0
2 session 2 transaction 1 view 1
",
);

/// All of them.
pub(crate) const HALTS: [Halt; 4] = [
    FIRST_COMMIT,
    THIRD_COMMIT,
    FIRST_CHECKPOINT,
    THIRD_CHECKPOINT,
];
