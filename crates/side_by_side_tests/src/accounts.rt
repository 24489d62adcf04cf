// A script of four tellers, with what it reports. It is worked out by hand.

use crate::row::Row;

/// One makes users, a class and three objects. Then four others are in the same view: two post to
/// accounts of their own and to one queue, one to an account to which another has posted, and one
/// only looks.
pub(crate) const TELLERS: Row = Row {
    order: &[
        (1, 0, 4),
        (2, 0, 0),
        (3, 0, 0),
        (4, 0, 0),
        (5, 0, 0),
        (2, 1, 1),
        (3, 1, 1),
        (4, 1, 1),
        (5, 1, 1),
        (2, 2, 2),
        (3, 2, 2),
        (4, 2, 2),
        (5, 2, 2),
    ],
    script: "\
session DataCurator
run
| s |
UserProfile newUser: #Alice; newUser: #Bob.
s := Segment new.
s worldAuthorization: #write.
Object subclass: #Account instVarNames: #(balance) inDictionary: Globals.
Globals at: #Checking put: (Account new assignToSegment: s; yourself).
Globals at: #Savings put: (Account new assignToSegment: s; yourself).
Globals at: #Posts put: (RcQueue new assignToSegment: s; yourself)
%
method: Account
balance
^balance isNil ifTrue: [0] ifFalse: [balance]
%
method: Account
post: n
balance := self balance + n.
^balance
%
commit
session Alice
printit
Posts add: #a. Checking post: 10
%
commit
session Bob
printit
Posts add: #b. Savings post: 20
%
commit
session Alice
printit
Checking post: 5
%
commit
session Bob
printit
Posts size
%
commit
",
    report: "\
session 1 DataCurator
[0] login view 0
[1] ok
[2] method balance
[3] method post:
[4] committed 1 view 1
[5] logout
session 2 Alice
[0] login view 1
[1] 10
[2] committed 2 view 2
[3] logout
session 3 Bob
[0] login view 1
[1] 20
[2] committed 3 view 3
[3] logout
session 4 Alice
[0] login view 1
[1] 5
[2] refused 1
C1 object 1:10 commit 2
[3] logout
session 5 Bob
[0] login view 1
[1] 0
[2] committed unchanged at 1 view 3
[3] logout
commits 3
1 session 1 transaction 1 view 0
2 session 2 transaction 1 view 1
3 session 3 transaction 1 view 1
",
};
