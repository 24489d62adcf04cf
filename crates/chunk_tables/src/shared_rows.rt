// Chunks over shared objects, special forms, rights and limits, as in `rows.rt`.

/// Segments, users, the transcript and reduced-conflict objects.
pub const SHARED: &str = "\
Segment new owner => an UserProfile
(Segment new ownerAuthorization: #read) ownerAuthorization => #read
(Segment new ownerAuthorization: #none) ownerAuthorization => #none
Segment new ownerAuthorization: #all => error E5 argument kind
Segment new ownerAuthorization: 3 => error E5 argument kind
(Segment new worldAuthorization: #write) worldAuthorization => #write
Segment new worldAuthorization: nil => error E5 argument kind
Segment new group: #g authorization: #read => a Segment
Segment new group: 'g' authorization: #read => error E5 argument kind
Segment new group: #g authorization: #x => error E5 argument kind
| s | s := Segment new. 1 to: 100 do: [:i | s group: i printString asSymbol authorization: \
    #read]. s => a Segment
| s | s := Segment new. 1 to: 101 do: [:i | s group: i printString asSymbol authorization: \
    #read]. s => error E17 object too large
| s | s := Segment new. 1 to: 100 do: [:i | s group: i printString asSymbol authorization: \
    #read]. s group: #zz authorization: #none => a Segment
DataCuratorSegment owner == System myUserProfile => true
SystemSegment worldAuthorization => #read
SystemSegment worldAuthorization: #none => error E11 no write right: 0:29
| s o | s := Segment new. o := Array new: 1. o assignToSegment: s. s ownerAuthorization: \
    #none. o at: 1 => error E10 no read right: 1:2
| s o | s := Segment new. o := Array new: 1. o assignToSegment: s. s ownerAuthorization: \
    #read. o at: 1 put: 3 => error E11 no write right: 1:2
| s o | s := Segment new. o := Array new: 1. o assignToSegment: s. s ownerAuthorization: \
    #read. o at: 1 => nil
System myUserProfile => an UserProfile
System myUserProfile userId => #DataCurator
System myUserProfile groups => #()
System myUserProfile addGroup: #staff => an UserProfile
(System myUserProfile addGroup: #b; addGroup: #a; addGroup: #b; yourself) groups => #(#a #b)
System myUserProfile addGroup: 'a' => error E5 argument kind
(System myUserProfile addGroup: #b; removeGroup: #b; yourself) groups => #()
System myUserProfile removeGroup: #x => error E18 key absent
System myUserProfile removeGroup: 3 => error E5 argument kind
| p | p := System myUserProfile. 1 to: 100 do: [:i | p addGroup: i printString asSymbol]. p \
    groups size => 100
| p | p := System myUserProfile. 1 to: 101 do: [:i | p addGroup: i printString asSymbol]. p \
    groups size => error E17 object too large
System myUserProfile defaultSegment == DataCuratorSegment => true
UserProfile newUser: #Alice => an UserProfile
(UserProfile newUser: #Alice) userId => #Alice
UserProfile newUser: #Alice. AllUsers size => 3
(UserProfile newUser: #Al) defaultSegment worldAuthorization => #read
(UserProfile newUser: #Al) defaultSegment ownerAuthorization => #write
(UserProfile newUser: #Al) defaultSegment owner userId => #Al
UserProfile newUser: 'Alice' => error E5 argument kind
UserProfile newUser: #DataCurator => error E5 argument kind
UserProfile newUser: #+ => error E5 argument kind
UserProfile newUser: #Alice; newUser: #Alice => error E5 argument kind
Transcript show: 'a' => a TranscriptStream
Transcript show: #b => a TranscriptStream
Transcript show: 3 => error E5 argument kind
Transcript show: nil => error E5 argument kind
Transcript cr => a TranscriptStream
Transcript show: (String new: 65536) => a TranscriptStream
Transcript show: (String new: 65537) => error E17 object too large
Transcript show: (String new: 65536); cr => error E17 object too large
RcCounter new value => 0
RcCounter new incrementBy: 3 => a RcCounter
(RcCounter new incrementBy: 5; yourself) value => 5
(RcCounter new increment; decrement; decrementBy: 3; yourself) value => -3
RcCounter new incrementBy: nil => error E5 argument kind
(RcCounter new incrementBy: 1152921504606846975) incrementBy: 1 => error E6 integer range
RcIdentityBag new add: #x => #x
RcIdentityBag new add: [1] => error E12 block stored
(RcIdentityBag new add: #x; yourself) remove: #x => #x
RcIdentityBag new remove: #x => error E18 key absent
RcIdentityBag new remove: [1] => error E18 key absent
(RcIdentityBag new add: 3; add: 3; yourself) occurrencesOf: 3 => 2
RcIdentityBag new occurrencesOf: [1] => 0
(RcIdentityBag new add: 3; add: #a; add: 1; add: 3; yourself) asArray => #(1 3 3 #a)
(RcIdentityBag new add: 3; add: 3; remove: 3; yourself) size => 1
(RcIdentityBag new add: 1; yourself) includes: 1 => true
RcKeyValueDictionary new at: #a put: 1 => 1
RcKeyValueDictionary new at: 'a' put: 1 => error E5 argument kind
RcKeyValueDictionary new at: nil put: 1 => error E5 argument kind
RcKeyValueDictionary new at: [1] put: 1 => error E5 argument kind
RcKeyValueDictionary new at: #a put: [1] => error E12 block stored
(RcKeyValueDictionary new at: #a put: 1; yourself) at: #a => 1
RcKeyValueDictionary new at: #b => error E18 key absent
RcKeyValueDictionary new at: nil => error E5 argument kind
(RcKeyValueDictionary new at: #a put: 1; yourself) removeKey: #a => 1
RcKeyValueDictionary new removeKey: #a => error E18 key absent
RcKeyValueDictionary new removeKey: nil => error E5 argument kind
(RcKeyValueDictionary new at: #a put: 1; yourself) includesKey: #a => true
RcKeyValueDictionary new includesKey: #a => false
RcKeyValueDictionary new includesKey: 'a' => error E5 argument kind
(RcKeyValueDictionary new at: #b put: 1; at: $a put: 2; at: 3 put: 4; at: true put: 5; \
    yourself) keys => #(true 3 $a #b)
(RcKeyValueDictionary new at: #a put: 1; yourself) size => 1
RcQueue new add: 7 => 7
RcQueue new add: [1] => error E12 block stored
RcQueue new remove => nil
(RcQueue new add: 1; add: 2; yourself) remove => 1
(RcQueue new add: 1; add: 2; remove; yourself) asArray => #(2)
RcQueue new size => 0
| s t | s := Segment new. t := 'a'. t assignToSegment: s. s ownerAuthorization: #none. 3 \
    error: t => error E10 no read right: 1:2
| s t | s := Segment new. t := 'a'. t assignToSegment: s. s ownerAuthorization: #none. 'b' , \
    t => error E10 no read right: 1:2
| s t | s := Segment new. t := 'a'. t assignToSegment: s. s ownerAuthorization: #none. 3 = t \
    => false
| s o | s := Segment new. o := RcQueue new. o assignToSegment: s. s ownerAuthorization: \
    #read. o remove => error E11 no write right: 1:2
| s o | s := Segment new. o := RcCounter new. o assignToSegment: s. s ownerAuthorization: \
    #read. o incrementBy: nil => error E11 no write right: 1:2
| s o | s := Segment new. o := IdentityDictionary new. o assignToSegment: s. s \
    ownerAuthorization: #read. o removeKey: #a => error E11 no write right: 1:2
| s o | System myUserProfile addGroup: #g. s := Segment new. o := Array new: 1. o \
    assignToSegment: s. s group: #g authorization: #read; ownerAuthorization: #none. o at: 1 => \
    nil
| s o | System myUserProfile addGroup: #g. s := Segment new. o := Array new: 1. o \
    assignToSegment: s. s group: #g authorization: #read; ownerAuthorization: #none. o at: 1 \
    put: 3 => error E11 no write right: 1:2
(RcCounter new incrementBy: 0 - 1152921504606846975 - 1) incrementBy: -1 => error E6 integer \
    range
SystemSegment ownerAuthorization: 3 => error E11 no write right: 0:29
(AllUsers at: #SystemUser) addGroup: #g => error E11 no write right: 0:31
DataCuratorSegment ownerAuthorization: #read. UserProfile newUser: #Al => error E11 no write \
    right: 0:28
| s | s := 'aaaaaaaaaaaaaaaa'. UserProfile newUser: (s , s , s , s) asSymbol => an UserProfile
| s | s := 'aaaaaaaaaaaaaaaa'. UserProfile newUser: (s , s , s , s , 'a') asSymbol => error E5 \
    argument kind
UserProfile newUser: #a1 => an UserProfile
UserProfile newUser: #a_b => error E5 argument kind
UserProfile newUser: #Al. (AllUsers at: #Al) groups => #()
(UserProfile newUser: #Al) segment == DataCuratorSegment => true
| s | s := (UserProfile newUser: #Al) defaultSegment. s segment == s => true
RcKeyValueDictionary new at: 'a' put: [1] => error E5 argument kind
RcKeyValueDictionary new at: [1] => error E5 argument kind
RcKeyValueDictionary new removeKey: [1] => error E5 argument kind
RcKeyValueDictionary new includesKey: [1] => error E5 argument kind
RcKeyValueDictionary new copy => error E5 argument kind
RcQueue new copy => error E5 argument kind
";

/// Names, cascades, special forms and budgets.
pub const FORMS: &str = "\
3 + 4 * 2 => 14
 => nil
^5 => 5
| a | a => nil
| a b | a := b := 3. a + b => 6
self => nil
super class => UndefinedObject
foo => error E2 undefined variable: foo
foo := 3 => error E2 undefined variable: foo
3 foo => error E1 not understood: foo
3 foo: 4 bar: 5 => error E1 not understood: foo:bar:
3 + 4; * 10 => 30
true ifTrue: [1] => 1
false ifTrue: [1] => nil
true ifFalse: [1] => nil
false ifFalse: [1] => 1
3 > 2 ifTrue: ['a'] ifFalse: ['b'] => 'a'
false ifTrue: [1] ifFalse: [2] => 2
true ifFalse: [1] ifTrue: [2] => 2
nil ifTrue: [1] => error E3 not a Boolean
3 and: [true] => error E3 not a Boolean
true and: [3] => 3
false and: [3] => false
true or: [3] => true
false or: [3] => 3
nil ifTrue: 3 => error E1 not understood: ifTrue:
true ifTrue: 3 => error E1 not understood: value
true & false => false
false | true => true
true not => false
[false] whileTrue: [1] => nil
[3] whileTrue: [1] => error E3 not a Boolean
| i | i := 0. [i < 3] whileTrue: [i := i + 1]. i => 3
| i | i := 0. [i >= 3] whileFalse: [i := i + 1]. i => 3
1 to: 3 do: [:i | i] => 1
| s | s := 0. 3 to: 5 do: [:i | s := s + i]. s => 12
| b s | s := 0. b := [:i | s := s + i]. 1 to: 3 do: b. s => 6
1 to: nil do: [:i | i] => error E5 argument kind
nil to: 3 do: [:i | i] => error E5 argument kind
1 to: 0 do: [:i | foo] => 1
1152921504606846974 to: 1152921504606846975 do: [:i | i] => 1152921504606846974
| n | n := 0. 3 timesRepeat: [n := n + 1]. n => 3
3 timesRepeat: [1] => 3
nil timesRepeat: [1] => error E5 argument kind
1 to: 3 do: [:i | ^i]. 5 => 1
1 to: 999999 do: [:i | ] => 1
1 to: 1000000 do: [:i | ] => error E13 send budget
[true] whileTrue: [] => error E13 send budget
nil isNil => true
3 isNil => false
3 notNil => true
3 yourself => 3
UserGlobals at: #B put: [3] => error E12 block stored
UserGlobals at: #T put: 3. T => 3
nil ifFalse: [1] => error E3 not a Boolean
nil ifTrue: [1] ifFalse: [2] => error E3 not a Boolean
nil ifFalse: [1] ifTrue: [2] => error E3 not a Boolean
3 or: [true] => error E3 not a Boolean
[3] whileFalse: [1] => error E3 not a Boolean
nil ifTrue: ([1]) => error E1 not understood: ifTrue:
true ifTrue: [1]; ifFalse: [2] => nil
Object foo => error E1 not understood: foo
3 timesRepeat: 4 => error E1 not understood: value
1 to: 3 do: 4 => error E1 not understood: value:
1 to: 499999 do: [:i | i + 1]. 3 + 4 => 7
1 to: 499999 do: [:i | i + 1]. 3 + 4 + 5 => error E13 send budget
1 to: 499999 do: [:i | i yourself]. 3 yourself => 3
1 to: 499999 do: [:i | i yourself]. 3 yourself yourself => error E13 send budget
[3] yourself value => 3
| b | b := [:x | x + 1]. 3 yourself. b value: 4 => 5
[:a :b :c | | d e | d := c. e := d - a. e * b] value: 1 value: 2 value: 4 => 6
| f g | 1 to: 2 do: [:i | | t | t := i. i = 1 ifTrue: [f := [t := t + 1]] ifFalse: [g := [t := \
t + 10]]]. f value. f value + g value => 15
| a b | a := 1. b := [:x | | c | c := x + a. a := c. [:y | a := a + y. c + y]]. ((b value: 2) \
value: 10) + a => 26
";

/// What rights let a user do, and which error comes first.
pub const RIGHTS: &str = "\
| s t | s := Segment new. t := 'a'. t assignToSegment: s. s ownerAuthorization: #none. 'b' = t \
    => error E10 no read right: 1:2
| s t | s := Segment new. t := 'a'. t assignToSegment: s. s ownerAuthorization: #none. 'b' < t \
    => error E10 no read right: 1:2
| s t | s := Segment new. t := 'a'. t assignToSegment: s. s ownerAuthorization: #none. \
    Transcript show: t => error E10 no read right: 1:2
| s t | s := Segment new. t := 'a'. t assignToSegment: s. s ownerAuthorization: #none. #b = t \
    => false
| s t | s := Segment new. t := Array new: 1. t assignToSegment: s. s ownerAuthorization: #none. \
    #(1) , t => error E10 no read right: 1:2
| s t | s := Segment new. t := Array new: 0. t assignToSegment: s. s ownerAuthorization: #none. \
    Object subclass: #Foo instVarNames: t inDictionary: UserGlobals => error E10 no read right: \
    1:2
| s o a | s := Segment new. o := Array new: 1. o assignToSegment: s. a := Array new: 1. a at: 1 \
    put: o. s ownerAuthorization: #none. a printString => error E10 no read right: 1:2
| s o | s := Segment new. o := RcCounter new. o assignToSegment: s. s ownerAuthorization: \
    #none. o value => error E10 no read right: 1:2
| s o | s := Segment new. o := OrderedCollection new. o assignToSegment: s. s \
    ownerAuthorization: #read. o add: [1] => error E11 no write right: 1:2
| s o | s := Segment new. o := OrderedCollection new. o assignToSegment: s. s \
    ownerAuthorization: #read. o addFirst: [1] => error E11 no write right: 1:2
| s o | s := Segment new. o := OrderedCollection new. o assignToSegment: s. s \
    ownerAuthorization: #read. o removeFirst => error E11 no write right: 1:2
| s o | s := Segment new. o := OrderedCollection new. o assignToSegment: s. s \
    ownerAuthorization: #read. o removeLast => error E11 no write right: 1:2
| s o | s := Segment new. o := String new. o assignToSegment: s. s ownerAuthorization: #read. o \
    at: 1 put: 3 => error E11 no write right: 1:2
| s o | s := Segment new. o := IdentityDictionary new. o assignToSegment: s. s \
    ownerAuthorization: #read. o at: nil put: 1 => error E11 no write right: 1:2
| s o | s := Segment new. o := IdentityDictionary new. o assignToSegment: s. s \
    ownerAuthorization: #read. Object subclass: #Foo instVarNames: #() inDictionary: o => error \
    E11 no write right: 1:2
| s o | s := Segment new. o := RcIdentityBag new. o assignToSegment: s. s ownerAuthorization: \
    #read. o add: [1] => error E11 no write right: 1:2
| s o | s := Segment new. o := RcIdentityBag new. o assignToSegment: s. s ownerAuthorization: \
    #read. o remove: 1 => error E11 no write right: 1:2
| s o | s := Segment new. o := RcKeyValueDictionary new. o assignToSegment: s. s \
    ownerAuthorization: #read. o at: nil put: 1 => error E11 no write right: 1:2
| s o | s := Segment new. o := RcKeyValueDictionary new. o assignToSegment: s. s \
    ownerAuthorization: #read. o removeKey: nil => error E11 no write right: 1:2
| s o | s := Segment new. o := RcQueue new. o assignToSegment: s. s ownerAuthorization: #read. \
    o add: [1] => error E11 no write right: 1:2
| s o | s := Segment new. o := IdentityDictionary new. o assignToSegment: s. s \
    ownerAuthorization: #read. Object subclass: #Foo instVarNames: #(1) inDictionary: o => \
    error E5 argument kind
SystemSegment group: 3 authorization: 3 => error E11 no write right: 0:29
(AllUsers at: #SystemUser) removeGroup: 3 => error E11 no write right: 0:31
Segment new assignToSegment: SystemSegment => error E11 no write right: 0:29
| s o | System myUserProfile addGroup: #g. s := Segment new. o := Array new: 1. o \
    assignToSegment: s. s group: #g authorization: #read; group: #g authorization: #write; \
    ownerAuthorization: #none. o at: 1 put: 3 => 3
| s o | System myUserProfile addGroup: #g. s := Segment new. o := Array new: 1. o \
    assignToSegment: s. s group: #g authorization: #read; group: #g authorization: #none; \
    ownerAuthorization: #none. o at: 1 => error E10 no read right: 1:2
| s o | System myUserProfile addGroup: #g. s := Segment new. o := Array new: 1. o \
    assignToSegment: s. s worldAuthorization: #read; ownerAuthorization: #none. o at: 1 => nil
| s o | System myUserProfile addGroup: #g. s := Segment new. o := Array new: 1. o \
    assignToSegment: s. s worldAuthorization: #write; ownerAuthorization: #none. o at: 1 put: 3 \
    => 3
| s | s := Segment new. s ownerAuthorization: #none. s ownerAuthorization: #write; \
    ownerAuthorization => #write
";

/// Space and sizes: in each chunk that fills 30 strings, 4,000,000 is spent or nearly so.
pub const LIMITS: &str = "\
30 timesRepeat: [String new: 1048000]. String new: 559752. 7 => 7
30 timesRepeat: [String new: 1048000]. String new: 559752. '' => error E15 space
30 timesRepeat: [String new: 1048000]. String new: 559752. #() => error E15 space
30 timesRepeat: [String new: 1048000]. String new: 559752. Object new => error E15 space
30 timesRepeat: [String new: 1048000]. String new: 559752. 3 printString => error E15 space
30 timesRepeat: [String new: 1048000]. String new: 559752. Transcript cr => error E15 space
30 timesRepeat: [String new: 1048000]. String new: 559752. System myUserProfile addGroup: #g => \
    error E15 space
30 timesRepeat: [String new: 1048000]. String new: 559752. System myUserProfile groups => error \
    E15 space
30 timesRepeat: [String new: 1048000]. String new: 559752. UserProfile newUser: #Al => error \
    E15 space
30 timesRepeat: [String new: 1048000]. String new: 559752. UserGlobals at: #T put: 3 => error \
    E15 space
| o | o := RcIdentityBag new. 30 timesRepeat: [String new: 1048000]. String new: 559744. o add: \
    1 => error E15 space
| o | o := RcQueue new. 30 timesRepeat: [String new: 1048000]. String new: 559744. o add: 1 => \
    error E15 space
| o | o := OrderedCollection new. 30 timesRepeat: [String new: 1048000]. String new: 559744. o \
    add: 1 => error E15 space
| o | o := OrderedCollection new. 30 timesRepeat: [String new: 1048000]. String new: 559744. o \
    addFirst: 1 => error E15 space
| o | o := RcKeyValueDictionary new. 30 timesRepeat: [String new: 1048000]. String new: 559744. \
    o at: 1 put: 1 => error E15 space
| o | o := IdentityDictionary new. 30 timesRepeat: [String new: 1048000]. String new: 559744. o \
    at: 1 put: 1 => error E15 space
| o | o := Segment new. 30 timesRepeat: [String new: 1048000]. String new: 559744. o group: #g \
    authorization: #read => error E15 space
| d | d := RcKeyValueDictionary new. d at: 1 put: 1. 30 timesRepeat: [String new: 1048000]. \
    String new: 559728. d at: 1 put: 2 => 2
| d | d := IdentityDictionary new. d at: 1 put: 1. 30 timesRepeat: [String new: 1048000]. \
    String new: 559728. d at: 1 put: 2 => 2
| t | t := String new: 65537. 30 timesRepeat: [String new: 1048000]. String new: 494200. \
    Transcript show: t => error E17 object too large
| b | b := RcIdentityBag new. 65000 timesRepeat: [b add: 3]. b size => 65000
| b | b := RcIdentityBag new. 65001 timesRepeat: [b add: 3] => error E17 object too large
| q s | s := (String new: 1000) asSymbol. q := RcQueue new. 1045 timesRepeat: [q add: s]. q \
    size => 1045
| q s | s := (String new: 1000) asSymbol. q := RcQueue new. 1046 timesRepeat: [q add: s] => \
    error E17 object too large
| b s | s := String new: 996. b := RcIdentityBag new. 1 to: 1037 do: [:i | b add: (s , (1000 + \
    i) printString) asSymbol] => 1
| b s | s := String new: 996. b := RcIdentityBag new. 1 to: 1038 do: [:i | b add: (s , (1000 + \
    i) printString) asSymbol] => error E17 object too large
| d s | s := (String new: 1000) asSymbol. d := RcKeyValueDictionary new. 1 to: 1036 do: [:i | d \
    at: i put: s] => 1
| d s | s := (String new: 1000) asSymbol. d := RcKeyValueDictionary new. 1 to: 1037 do: [:i | d \
    at: i put: s] => error E17 object too large
| d | d := RcKeyValueDictionary new. 1 to: 32500 do: [:i | d at: i put: i] => 1
| d | d := RcKeyValueDictionary new. 1 to: 32501 do: [:i | d at: i put: i] => error E17 object \
    too large
| q | q := RcQueue new. 65000 timesRepeat: [q add: 3]. q size => 65000
| q | q := RcQueue new. 65001 timesRepeat: [q add: 3] => error E17 object too large
| d | d := IdentityDictionary new. 1 to: 32500 do: [:i | d at: i put: i] => 1
| d | d := IdentityDictionary new. 1 to: 32501 do: [:i | d at: i put: i] => error E17 object \
    too large
";
