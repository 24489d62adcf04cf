// Scripts of sessions side by side over objects whose updates are merged (counters, bags, queues
// and dictionaries), with what they report. It is worked out by hand.

use crate::row::Row;

/// Both count, and both counts stand.
const COUNTS_ADD_UP: Row = Row {
    order: &[(3, 0, 1), (2, 0, 2), (3, 2, 3), (4, 0, 0)],
    script: "\
session DataCurator
printit
1 to: 10 do: [:i | Hits increment]. Hits value
%
commit
session DataCurator
printit
1 to: 10 do: [:i | Hits increment]. Hits value
%
commit
printit
Hits value
%
session DataCurator
printit
Hits value
%
",
    report: "\
session 2 DataCurator
[0] login view 1
[1] 10
[2] committed 2 view 2
[3] logout
session 3 DataCurator
[0] login view 1
[1] 10
[2] committed 3 view 3
[3] 20
[4] logout
session 4 DataCurator
[0] login view 3
[1] 20
[2] logout
commits 3
1 session 1 transaction 1 view 0
2 session 2 transaction 1 view 1
3 session 3 transaction 1 view 1
",
};

/// The second count would be past the largest integer.
const COUNT_TOO_LARGE: Row = Row {
    order: &[(2, 0, 2), (4, 0, 1), (3, 0, 2), (4, 2, 4), (5, 0, 0)],
    script: "\
session DataCurator
run
Hits incrementBy: 1152921504606846974
%
commit
session DataCurator
run
Hits increment
%
commit
session DataCurator
run
Hits increment
%
commit
abort
printit
Hits value
%
session DataCurator
printit
Hits value
%
",
    report: "\
session 2 DataCurator
[0] login view 1
[1] ok
[2] committed 2 view 2
[3] logout
session 3 DataCurator
[0] login view 2
[1] ok
[2] committed 3 view 3
[3] logout
session 4 DataCurator
[0] login view 2
[1] ok
[2] refused 1
C5 object 1:3 commit 3
[3] aborted view 3
[4] 1152921504606846975
[5] logout
session 5 DataCurator
[0] login view 3
[1] 1152921504606846975
[2] logout
commits 3
1 session 1 transaction 1 view 0
2 session 2 transaction 1 view 1
3 session 3 transaction 1 view 2
",
};

/// Both take the one occurrence out of the bag.
const ONE_TO_REMOVE: Row = Row {
    order: &[(2, 0, 2), (4, 0, 1), (3, 0, 2), (4, 2, 2), (5, 0, 0)],
    script: "\
session DataCurator
run
Bag add: #x
%
commit
session DataCurator
run
Bag remove: #x
%
commit
session DataCurator
run
Bag remove: #x
%
commit
session DataCurator
printit
Bag size
%
",
    report: "\
session 2 DataCurator
[0] login view 1
[1] ok
[2] committed 2 view 2
[3] logout
session 3 DataCurator
[0] login view 2
[1] ok
[2] committed 3 view 3
[3] logout
session 4 DataCurator
[0] login view 2
[1] ok
[2] refused 1
C6 object 1:4 commit 3
[3] logout
session 5 DataCurator
[0] login view 3
[1] 0
[2] logout
commits 3
1 session 1 transaction 1 view 0
2 session 2 transaction 1 view 1
3 session 3 transaction 1 view 2
",
};

/// There are two, and each takes one.
const TWO_TO_REMOVE: Row = Row {
    order: &[(2, 0, 2), (4, 0, 1), (3, 0, 2), (4, 2, 2), (5, 0, 0)],
    script: "\
session DataCurator
run
Bag add: #x; add: #x
%
commit
session DataCurator
run
Bag remove: #x
%
commit
session DataCurator
run
Bag remove: #x
%
commit
session DataCurator
printit
Bag size
%
",
    report: "\
session 2 DataCurator
[0] login view 1
[1] ok
[2] committed 2 view 2
[3] logout
session 3 DataCurator
[0] login view 2
[1] ok
[2] committed 3 view 3
[3] logout
session 4 DataCurator
[0] login view 2
[1] ok
[2] committed 4 view 4
[3] logout
session 5 DataCurator
[0] login view 4
[1] 0
[2] logout
commits 4
1 session 1 transaction 1 view 0
2 session 2 transaction 1 view 1
3 session 3 transaction 1 view 2
4 session 4 transaction 1 view 2
",
};

/// One adds to the queue's end, and then the other one takes its front.
const ADDED_THEN_TAKEN: Row = Row {
    order: &[(2, 0, 2), (4, 0, 1), (3, 0, 2), (4, 2, 2), (5, 0, 0)],
    script: "\
session DataCurator
run
Line add: 1; add: 2
%
commit
session DataCurator
run
Line add: 3
%
commit
session DataCurator
printit
Line remove
%
commit
session DataCurator
printit
Line asArray
%
",
    report: "\
session 2 DataCurator
[0] login view 1
[1] ok
[2] committed 2 view 2
[3] logout
session 3 DataCurator
[0] login view 2
[1] ok
[2] committed 3 view 3
[3] logout
session 4 DataCurator
[0] login view 2
[1] 1
[2] committed 4 view 4
[3] logout
session 5 DataCurator
[0] login view 4
[1] #(2 3)
[2] logout
commits 4
1 session 1 transaction 1 view 0
2 session 2 transaction 1 view 1
3 session 3 transaction 1 view 2
4 session 4 transaction 1 view 2
",
};

/// The same the other way about.
const TAKEN_THEN_ADDED: Row = Row {
    order: &[(2, 0, 2), (4, 0, 1), (3, 0, 2), (4, 2, 2), (5, 0, 0)],
    script: "\
session DataCurator
run
Line add: 1; add: 2
%
commit
session DataCurator
printit
Line remove
%
commit
session DataCurator
run
Line add: 3
%
commit
session DataCurator
printit
Line asArray
%
",
    report: "\
session 2 DataCurator
[0] login view 1
[1] ok
[2] committed 2 view 2
[3] logout
session 3 DataCurator
[0] login view 2
[1] 1
[2] committed 3 view 3
[3] logout
session 4 DataCurator
[0] login view 2
[1] ok
[2] committed 4 view 4
[3] logout
session 5 DataCurator
[0] login view 4
[1] #(2 3)
[2] logout
commits 4
1 session 1 transaction 1 view 0
2 session 2 transaction 1 view 1
3 session 3 transaction 1 view 2
4 session 4 transaction 1 view 2
",
};

/// Both take the queue's front.
const FRONT_TAKEN_TWICE: Row = Row {
    order: &[(2, 0, 2), (4, 0, 1), (3, 0, 2), (4, 2, 2), (5, 0, 0)],
    script: "\
session DataCurator
run
Line add: 1; add: 2
%
commit
session DataCurator
printit
Line remove
%
commit
session DataCurator
printit
Line remove
%
commit
session DataCurator
printit
Line asArray
%
",
    report: "\
session 2 DataCurator
[0] login view 1
[1] ok
[2] committed 2 view 2
[3] logout
session 3 DataCurator
[0] login view 2
[1] 1
[2] committed 3 view 3
[3] logout
session 4 DataCurator
[0] login view 2
[1] 1
[2] refused 1
C8 object 1:6 commit 3
[3] logout
session 5 DataCurator
[0] login view 3
[1] #(2)
[2] logout
commits 3
1 session 1 transaction 1 view 0
2 session 2 transaction 1 view 1
3 session 3 transaction 1 view 2
",
};

/// One takes the item that it added itself, which is no longer the front.
const OWN_ITEM_TAKEN: Row = Row {
    order: &[(3, 0, 1), (2, 0, 2), (3, 2, 2), (4, 0, 0)],
    script: "\
session DataCurator
run
Line add: 8
%
commit
session DataCurator
printit
Line add: 7. Line remove
%
commit
session DataCurator
printit
Line asArray
%
",
    report: "\
session 2 DataCurator
[0] login view 1
[1] ok
[2] committed 2 view 2
[3] logout
session 3 DataCurator
[0] login view 1
[1] 7
[2] refused 1
C8 object 1:6 commit 2
[3] logout
session 4 DataCurator
[0] login view 2
[1] #(8)
[2] logout
commits 2
1 session 1 transaction 1 view 0
2 session 2 transaction 1 view 1
",
};

/// Both write the table, at different keys.
const TWO_KEYS: Row = Row {
    order: &[(3, 0, 1), (2, 0, 2), (3, 2, 2), (4, 0, 0)],
    script: "\
session DataCurator
run
Tab at: #a put: 1
%
commit
session DataCurator
run
Tab at: #b put: 2
%
commit
session DataCurator
printit
Tab at: #a
%
printit
Tab at: #b
%
",
    report: "\
session 2 DataCurator
[0] login view 1
[1] ok
[2] committed 2 view 2
[3] logout
session 3 DataCurator
[0] login view 1
[1] ok
[2] committed 3 view 3
[3] logout
session 4 DataCurator
[0] login view 3
[1] 1
[2] 2
[3] logout
commits 3
1 session 1 transaction 1 view 0
2 session 2 transaction 1 view 1
3 session 3 transaction 1 view 1
",
};

/// At the same key, with the same value.
const ONE_KEY: Row = Row {
    order: &[(3, 0, 1), (2, 0, 2), (3, 2, 2), (4, 0, 0)],
    script: "\
session DataCurator
run
Tab at: #a put: 1
%
commit
session DataCurator
run
Tab at: #a put: 1
%
commit
session DataCurator
printit
Tab at: #a
%
",
    report: "\
session 2 DataCurator
[0] login view 1
[1] ok
[2] committed 2 view 2
[3] logout
session 3 DataCurator
[0] login view 1
[1] ok
[2] refused 1
C7 object 1:5 commit 2
[3] logout
session 4 DataCurator
[0] login view 2
[1] 1
[2] logout
commits 2
1 session 1 transaction 1 view 0
2 session 2 transaction 1 view 1
",
};

/// All of them.
pub(crate) const ROWS: [Row; 10] = [
    COUNTS_ADD_UP,
    COUNT_TOO_LARGE,
    ONE_TO_REMOVE,
    TWO_TO_REMOVE,
    ADDED_THEN_TAKEN,
    TAKEN_THEN_ADDED,
    FRONT_TAKEN_TWICE,
    OWN_ITEM_TAKEN,
    TWO_KEYS,
    ONE_KEY,
];
