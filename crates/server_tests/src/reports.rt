// Scripts, each with the whole report that it has to give, worked out by hand from the rules of the
// language and of the report.

/// Logins: who may, and what a session whose user isn't there is replied to.
const LOGINS: (&str, &str) = (
    "\
session SystemUser
printit
System myUserProfile userId
%
session Nobody
printit
3 +
%
lock read Globals
logout
session Anna
session DataCurator
run
UserProfile newUser: #Anna
%
session Anna
session DataCurator
commit
run
UserProfile newUser: #Anna
%
commit
run
UserProfile newUser: #Anna
%
session Anna
printit
System myUserProfile userId
%
",
    "\
session 1 SystemUser
[0] login view 0
[1] #SystemUser
[2] logout
session 2 Nobody
[0] no user at view 0
[1] not logged in
[2] not logged in
[3] not logged in
session 3 Anna
[0] no user at view 0
[1] not logged in
session 4 DataCurator
[0] login view 0
[1] ok
[2] logout
session 5 Anna
[0] no user at view 0
[1] not logged in
session 6 DataCurator
[0] login view 0
[1] committed unchanged at 0 view 0
[2] ok
[3] committed 1 view 1
[4] error E5 argument kind
[5] logout
session 7 Anna
[0] login view 1
[1] #Anna
[2] logout
commits 1
1 session 6 transaction 2 view 0
",
);

/// Chunks that aren't of the language, what chunks write, and what they print.
const CHUNKS: (&str, &str) = (
    "\
session DataCurator
run
3 +
%
printit
3 + }
%
run
'it
%
printit
self := 3
%
method: Nothing
at: put:
%
printit
%
run
%
printit
Transcript show: 'a\\'; cr; show: '\tb'; cr. 'it''s'
%
run
Transcript show: 'half'. 3 foo. Transcript show: 'whole'
%
run
Transcript show: ''
%
printit
#(1 $a #b foo: 'c' (2 nil true)) collect: [:each | each]
%
printit
#'two words'
%
printit
[3]
%
printit
OrderedCollection new
%
printit
Array
%
printit
^7. 
%
printit
^7. 8
%
",
    "\
session 1 DataCurator
[0] login view 0
[1] parse P4 at 4
[2] parse P1 at 4
[3] parse P2 at 0
[4] parse P8 at 5
[5] parse P4 at 4
[6] nil
[7] ok
[8] show a\\\\\\n\\x09b\\n
[8] 'it''s'
[9] show half
[9] error E1 not understood: foo
[10] ok
[11] #(1 $a #b #foo: 'c' an Array)
[12] #'two words'
[13] a Block
[14] an OrderedCollection
[15] Array
[16] 7
[17] parse P4 at 4
[18] logout
commits 0
",
);

/// The errors of chunks, by their numbers. Those of a chunk's budget stand beside, and E16 isn't
/// among them: to use up all names of a session takes too long.
const ERRORS: (&str, &str) = (
    "\
session DataCurator
run
3 foo
%
run
Foo
%
run
foo := 3
%
run
3 ifTrue: [4]
%
run
(Array new: 2) at: 3
%
run
3 + nil
%
run
1152921504606846975 + 1
%
run
3 // 0
%
run
Object subclass: #Maker instVarNames: #() inDictionary: UserGlobals
%
method: Maker
make
^[^5]
%
run
Maker new make value
%
run
[:x | x] value
%
run
| s a |
s := Segment new.
a := (Array new: 1) assignToSegment: s; yourself.
s ownerAuthorization: #none.
a at: 1
%
run
| s a |
s := Segment new.
a := (Array new: 1) assignToSegment: s; yourself.
s ownerAuthorization: #read.
a at: 1 put: (a at: 1)
%
run
Globals at: #B put: [3]
%
run
Array new: 65001
%
run
Globals at: #Nothing
%
run
| s |
s := Segment new.
s assignToSegment: s
%
run
3 error: 'late'
%
commit
",
    "\
session 1 DataCurator
[0] login view 0
[1] error E1 not understood: foo
[2] error E2 undefined variable: Foo
[3] error E2 undefined variable: foo
[4] error E3 not a Boolean
[5] error E4 index
[6] error E5 argument kind
[7] error E6 integer range
[8] error E7 zero divisor
[9] ok
[10] method make
[11] error E8 dead home
[12] error E9 block argument count
[13] error E10 no read right: 1:6
[14] error E11 no write right: 1:8
[15] error E12 block stored
[16] error E17 object too large
[17] error E18 key absent
[18] error E19 segment change refused
[19] error E20 error: late
[20] committed 1 view 1
[21] logout
commits 1
1 session 1 transaction 1 view 0
",
);

/// What a chunk that uses up its budget is replied to, and what it did before stays.
const BUDGETS: (&str, &str) = (
    "\
session DataCurator
run
UserGlobals at: #K put: 1. 1 to: 500000 do: [:i | i]. 1 to: 499997 do: [:i | i]
%
run
UserGlobals at: #K put: 2. 1 to: 500000 do: [:i | i]. 1 to: 499998 do: [:i | i]
%
printit
K
%
run
Object subclass: #Diver instVarNames: #() inDictionary: UserGlobals
%
method: Diver
dive: n
^n = 0 ifTrue: ['the ground'] ifFalse: [self dive: n - 1]
%
printit
Diver new dive: 1998
%
printit
Diver new dive: 1999
%
run
1 to: 66 do: [:i | Array new: 60000]. Array new: 39933
%
run
1 to: 66 do: [:i | Array new: 60000]. Array new: 39934
%
",
    "\
session 1 DataCurator
[0] login view 0
[1] ok
[2] error E13 send budget
[3] 2
[4] ok
[5] method dive:
[6] 'the ground'
[7] error E14 depth
[8] ok
[9] error E15 space
[10] logout
commits 0
",
);

/// Methods: which are kept, and the errors in the order in which they are tried.
const METHODS: (&str, &str) = (
    "\
session DataCurator
method: Point
x +
%
method: Point
x
^x
%
method: Globals
x
^x
%
method: Object
x
^x
%
run
Globals at: #Three put: 3.
Object subclass: #Point instVarNames: #(x y) inDictionary: Globals
%
method: Three
x
^x
%
method: Point
x: a y: b
x := a. y := b
%
method: Point
+ other
^Point x: x + other x y: y + other y
%
method: Point
x
^x
%
method: Point
y
^y
%
classmethod: Point
x: a y: b
^self new x: a y: b; yourself
%
printit
((Point x: 1 y: 2) + (Point x: 3 y: 4)) y
%
printit
Point selectors
%
commit
session DataCurator
method: Point
y
^0 - y
%
printit
(Point x: 1 y: 2) y
%
abort
printit
(Point x: 1 y: 2) y
%
",
    "\
session 1 DataCurator
[0] login view 0
[1] parse P4 at 2
[2] error E2 undefined variable: Point
[3] error E5 argument kind
[4] error E11 no write right: 0:1
[5] ok
[6] error E5 argument kind
[7] method x:y:
[8] method +
[9] method x
[10] method y
[11] method x:y:
[12] 6
[13] #(#+ #x #x:y: #y)
[14] committed 1 view 1
[15] logout
session 2 DataCurator
[0] login view 1
[1] method y
[2] -2
[3] aborted view 1
[4] 2
[5] logout
commits 1
1 session 1 transaction 1 view 0
",
);

/// Commits and aborts: what is kept, and which transaction it is.
const COMMITS: (&str, &str) = (
    "\
session DataCurator
commit
abort
run
UserGlobals at: #K put: 1
%
abort
printit
K
%
run
UserGlobals at: #K put: 2. 3 foo
%
commit
printit
K
%
commit
run
Globals at: #Hits put: RcCounter new; at: #Seen put: 0
%
printit
Hits increment; incrementBy: 5. Hits value
%
commit
run
Hits decrement
%
commit
session DataCurator
printit
Hits value
%
printit
K
%
run
Hits increment
%
session SystemUser
printit
Hits value
%
printit
K
%
run
Hits increment
%
",
    "\
session 1 DataCurator
[0] login view 0
[1] committed unchanged at 0 view 0
[2] aborted view 0
[3] ok
[4] aborted view 0
[5] error E2 undefined variable: K
[6] error E1 not understood: foo
[7] committed 1 view 1
[8] 2
[9] committed unchanged at 1 view 1
[10] ok
[11] 6
[12] committed 2 view 2
[13] ok
[14] committed 3 view 3
[15] logout
session 2 DataCurator
[0] login view 3
[1] 5
[2] 2
[3] ok
[4] logout
session 3 SystemUser
[0] login view 3
[1] 5
[2] error E2 undefined variable: K
[3] error E11 no write right: 1:1
[4] logout
commits 3
1 session 1 transaction 4 view 0
2 session 1 transaction 6 view 1
3 session 1 transaction 7 view 2
",
);

/// Locks, in the order in which their replies are tried.
const LOCKS: (&str, &str) = (
    "\
session DataCurator
lock read Nothing
lock write Nothing
unlock Nothing
run
UserProfile newUser: #Anna.
Globals at: #Three put: 3; at: #Box put: (Array new: 1).
UserGlobals at: #Own put: (Array new: 1)
%
lock write Three
unlock Three
lock read Box
unlock Box
commit
lock write Box
lock read Box
lock read Own
lock write Own
abort
unlock Own
unlock Own
lock write Object
lock read Object
session Anna
lock read Own
lock write Box
lock read Box
lock write UserGlobals
unlock Box
unlock Object
logout
session DataCurator
run
| s |
s := Segment new.
s worldAuthorization: #none.
Globals assignToSegment: s
%
commit
lock write Globals
session Anna
lock read Box
unlock Box
lock read UserGlobals
",
    "\
session 1 DataCurator
[0] login view 0
[1] no name Nothing
[2] no name Nothing
[3] no name Nothing
[4] ok
[5] not an object Three
[6] not an object Three
[7] not committed 1:4
[8] not held 1:4
[9] committed 1 view 1
[10] locked write 1:4 clean
[11] locked write 1:4 clean
[12] locked read 1:5 clean
[13] locked write 1:5 clean
[14] aborted view 1
[15] unlocked 1:5
[16] not held 1:5
[17] no right 0:1
[18] locked read 0:1 clean
[19] logout
session 2 Anna
[0] login view 1
[1] no name Own
[2] no right 1:4
[3] locked read 1:4 clean
[4] locked write 1:2 clean
[5] unlocked 1:4
[6] not held 0:1
[7] logout
session 3 DataCurator
[0] login view 1
[1] ok
[2] committed 2 view 2
[3] locked write 0:27 clean
[4] logout
session 4 Anna
[0] login view 2
[1] no name Box
[2] no name Box
[3] locked read 1:2 clean
[4] logout
commits 2
1 session 1 transaction 1 view 0
2 session 3 transaction 1 view 1
",
);

/// Checkpoints, and lines that set the mode: the last one before a commit tells what it is checked
/// for, and another session's don't.
const MODES: (&str, &str) = (
    "\
session DataCurator
checkpoint
mode no_rw_checks
run
Globals at: #T put: 3
%
checkpoint
commit
checkpoint
mode full_checks
run
Globals at: #T put: 4
%
commit
run
Globals at: #T put: 5
%
mode no_rw_checks
mode full_checks
mode no_rw_checks
commit
commit
session DataCurator
run
Globals at: #T put: T + 1
%
commit
mode no_rw_checks
abort
printit
T
%
session Nobody
checkpoint
mode full_checks
",
    "\
session 1 DataCurator
[0] login view 0
[1] checkpoint 0
[2] mode no_rw_checks
[3] ok
[4] checkpoint 0
[5] committed 1 view 1
[6] checkpoint 1
[7] mode full_checks
[8] ok
[9] committed 2 view 2
[10] ok
[11] mode no_rw_checks
[12] mode full_checks
[13] mode no_rw_checks
[14] committed 3 view 3
[15] committed unchanged at 3 view 3
[16] logout
session 2 DataCurator
[0] login view 3
[1] ok
[2] committed 4 view 4
[3] mode no_rw_checks
[4] aborted view 4
[5] 6
[6] logout
session 3 Nobody
[0] no user at view 4
[1] not logged in
[2] not logged in
[3] not logged in
commits 4
1 session 1 transaction 1 view 0 no_rw_checks
2 session 1 transaction 2 view 1
3 session 1 transaction 3 view 2 no_rw_checks
4 session 2 transaction 1 view 3
",
);

/// Scripts that take little time.
pub(crate) const REPORTS: [(&str, &str); 7] = [
    LOGINS, CHUNKS, ERRORS, METHODS, COMMITS, LOCKS, MODES,
];

/// Scripts that go to the limits of a chunk.
pub(crate) const LONG_REPORTS: [(&str, &str); 1] = [BUDGETS];
