// Chunks, each with what it is replied to: one on each line, with ` => ` between. Each runs by
// itself on the image of the kernel, for DataCurator.

/// Messages that any receiver understands.
pub const ANY: &str = "\
nil == nil => true
3 == 3 => true
3 == 4 => false
#a == #a => true
'a' == 'a' => false
| a | a := 'x'. a == a => true
nil == false => false
Object == Object => true
3 == [3] => error E5 argument kind
[3] == 3 => error E5 argument kind
nil = nil => true
(Array new: 1) = (Array new: 1) => false
Object = Object => true
97 = $a => false
true = [1] => error E5 argument kind
[1] = true => error E5 argument kind
3 class => SmallInteger
nil class => UndefinedObject
true class => True
false class => False
$a class => Character
#a class => Symbol
'a' class => String
[1] class => Block
Object class => Class
Class class => Class
(Array new: 2) class => Array
Transcript class => TranscriptStream
Globals class => SymbolDictionary
3 printString => '3'
nil printString => 'nil'
true printString => 'true'
-7 printString => '-7'
$a printString => '$a'
#a printString => '#a'
#a:b: printString => '#a:b:'
#+ printString => '#+'
'a b' asSymbol printString => '#''a b'''
'it''s' printString => '''it''''s'''
[1] printString => 'a Block'
Object printString => 'Object'
Object new printString => 'an Object'
(Array new: 2) printString => '#(nil nil)'
OrderedCollection new printString => 'an OrderedCollection'
Globals printString => 'a SymbolDictionary'
(String new: 65534) printString size => 65536
(String new: 65535) printString => error E17 object too large
String new: 65535 => error E17 object too large
nil error: 'no' => error E20 error: no
3 error: #bad => error E20 error: bad
3 error: 4 => error E5 argument kind
3 error: nil => error E5 argument kind
3 error: #(1) => error E5 argument kind
3 isKindOf: SmallInteger => true
3 isKindOf: Magnitude => true
3 isKindOf: Object => true
3 isKindOf: String => false
'a' isKindOf: Collection => true
Object isKindOf: Class => true
[1] isKindOf: Block => true
nil isKindOf: UndefinedObject => true
3 isKindOf: 4 => error E5 argument kind
3 isKindOf: 'a' => error E5 argument kind
3 copy => 3
nil copy => nil
#a copy => #a
'abc' copy => 'abc'
| a | a := 'abc'. a copy == a => false
| a b | a := Array new: 2. b := a copy. b at: 1 put: 7. a at: 1 => nil
| a b | a := Array new: 2. b := a copy. b at: 1 put: 7. b => #(7 nil)
IdentityDictionary new copy => an IdentityDictionary
Transcript copy => a TranscriptStream
[1] copy => error E5 argument kind
Object copy => error E5 argument kind
RcCounter new copy => error E5 argument kind
Segment new copy => error E5 argument kind
System myUserProfile copy => error E5 argument kind
3 segment => nil
nil segment => nil
[1] segment => nil
Object segment => a Segment
Object segment == SystemSegment => true
'a' segment == DataCuratorSegment => true
| s | s := Segment new. s segment == s => true
| s o | s := Segment new. o := Object new. o assignToSegment: s. o segment == s => true
Object new assignToSegment: Segment new => an Object
RcCounter new assignToSegment: Segment new => a RcCounter
3 assignToSegment: Segment new => 3
Object new assignToSegment: 3 => error E5 argument kind
Object new assignToSegment: Object new => error E5 argument kind
3 assignToSegment: 4 => error E5 argument kind
Segment new assignToSegment: Segment new => error E19 segment change refused
(UserProfile newUser: #Zed) assignToSegment: Segment new => error E19 segment change refused
Object new assignToSegment: SystemSegment => error E11 no write right: 0:29
Object assignToSegment: Segment new => error E11 no write right: 0:1
[1] assignToSegment: Segment new => a Block
RcIdentityBag new copy => error E5 argument kind
3 assignToSegment: SystemSegment => error E11 no write right: 0:29
| s o | s := Segment new. o := Array new: 1. o assignToSegment: s. o copy segment == \
    DataCuratorSegment => true
";

/// Integers and characters.
pub const NUMBERS: &str = "\
3 + 4 => 7
-5 + 3 => -2
1152921504606846974 + 1 => 1152921504606846975
1152921504606846975 + 1 => error E6 integer range
3 + 'a' => error E5 argument kind
3 + nil => error E5 argument kind
3 - 4 => -1
3 -4 => -1
0 - 1152921504606846975 - 1 => -1152921504606846976
0 - 1152921504606846975 - 2 => error E6 integer range
3 - $a => error E5 argument kind
6 * 7 => 42
-6 * 7 => -42
1073741824 * 1073741823 => 1152921503533105152
1073741824 * 1073741824 => error E6 integer range
-1073741824 * 1073741824 => -1152921504606846976
1152921504606846975 * 1152921504606846975 => error E6 integer range
3 * #a => error E5 argument kind
7 // 2 => 3
-7 // 2 => -4
7 // -2 => -4
-7 // -2 => 3
7 // 0 => error E7 zero divisor
7 // $a => error E5 argument kind
(0 - 1152921504606846975 - 1) // -1 => error E6 integer range
7 \\\\ 2 => 1
-7 \\\\ 2 => 1
7 \\\\ -2 => -1
-7 \\\\ -2 => -1
7 \\\\ 0 => error E7 zero divisor
7 \\\\ nil => error E5 argument kind
-7 quo: 2 => -3
7 quo: -2 => -3
7 quo: 0 => error E7 zero divisor
7 quo: nil => error E5 argument kind
(0 - 1152921504606846975 - 1) quo: -1 => error E6 integer range
-7 rem: 2 => -1
7 rem: -2 => 1
7 rem: 0 => error E7 zero divisor
7 rem: nil => error E5 argument kind
3 < 4 => true
4 < 3 => false
3 < 3 => false
3 < nil => error E5 argument kind
3 > 2 => true
3 > 3 => false
3 > 'a' => error E5 argument kind
3 <= 3 => true
4 <= 3 => false
3 <= #a => error E5 argument kind
3 >= 3 => true
2 >= 3 => false
3 >= [3] => error E5 argument kind
12 bitAnd: 10 => 8
-1 bitAnd: 255 => 255
-4 bitAnd: -6 => -8
3 bitAnd: nil => error E5 argument kind
12 bitOr: 10 => 14
-8 bitOr: 3 => -5
3 bitOr: $a => error E5 argument kind
12 bitXor: 10 => 6
-1 bitXor: 5 => -6
-4 bitXor: -6 => 6
3 bitXor: #x => error E5 argument kind
1 bitShift: 10 => 1024
1024 bitShift: -3 => 128
-5 bitShift: -1 => -3
1 bitShift: 59 => 576460752303423488
1 bitShift: 60 => error E6 integer range
-1 bitShift: 60 => -1152921504606846976
0 bitShift: 1000 => 0
1 bitShift: -1000 => 0
-1 bitShift: -1000 => -1
3 bitShift: 1152921504606846975 => error E6 integer range
1 bitShift: 'a' => error E5 argument kind
97 asCharacter => $a
127 asCharacter asInteger => 127
0 asCharacter asInteger => 0
128 asCharacter => error E6 integer range
-1 asCharacter => error E6 integer range
255 printString: 16 => 'FF'
-255 printString: 16 => '-FF'
5 printString: 2 => '101'
35 printString: 36 => 'Z'
0 printString: 2 => '0'
5 printString: 1 => error E6 integer range
5 printString: 37 => error E6 integer range
5 printString: $a => error E5 argument kind
$a asInteger => 97
$z asInteger => 122
3 + 4 max: 9 => 9
3 ~= 4 => true
3 ~~ 3 => false
3 min: 9 => 3
3 between: 1 and: 5 => true
-3 abs => 3
3 negated => -3
4 even => true
3 odd => true
3 asString => '3'
$a < $b => true
$5 isDigit => true
$a isLetter => true
$5 isLetter => false
-1152921504606846975 + -1 => -1152921504606846976
-1152921504606846975 + -2 => error E6 integer range
1152921504606846975 - -1 => error E6 integer range
-1 bitShift: 61 => error E6 integer range
(0 - 1152921504606846975 - 1) \\\\ -1 => 0
(0 - 1152921504606846975 - 1) rem: -1 => 0
-5 bitShift: 0 - 1152921504606846975 - 1 => -1
0 bitShift: 1152921504606846975 => 0
3 + 4. 1152921504606846974 + 1 => 1152921504606846975
3 + 4. 1152921504606846975 + 1 => error E6 integer range
3 + 4. 3 + 'a' => error E5 argument kind
3 - 4. -1152921504606846975 - 1 => -1152921504606846976
3 - 4. -1152921504606846975 - 2 => error E6 integer range
6 * 7. 1073741824 * 1073741824 => error E6 integer range
6 * 7. 3 * #a => error E5 argument kind
7 // 2. -7 // -2 => 3
7 // 2. 7 // 0 => error E7 zero divisor
7 \\\\ 2. 7 \\\\ -2 => -1
7 \\\\ 2. 7 \\\\ 0 => error E7 zero divisor
3 < 4. 4 < 3 => false
3 < 4. 3 < nil => error E5 argument kind
3 > 2. 3 > 'a' => error E5 argument kind
3 <= 3. 4 <= 3 => false
3 >= 3. 3 >= [3] => error E5 argument kind
3 = 3. 3 = 4 => false
3 = 3. 3 = [3] => error E5 argument kind
3 == 3. 3 == $a => false
12 bitAnd: 10. -4 bitAnd: -6 => -8
12 bitAnd: 10. 3 bitAnd: nil => error E5 argument kind
";

/// Blocks.
pub const BLOCKS: &str = "\
[3] value => 3
[] value => nil
[:x | x + 1] value: 2 => 3
[:x :y | x - y] value: 5 value: 3 => 2
[:x :y :z | x * y * z] value: 2 value: 3 value: 4 => 24
[:x | x] value => error E9 block argument count
[3] value: 1 => error E9 block argument count
[:x | x] value: 1 value: 2 => error E9 block argument count
[:x :y | x] value: 1 value: 2 value: 3 => error E9 block argument count
[:x :y | x] numArgs => 2
[] numArgs => 0
[^3] value. 4 => 3
| b | b := [:n | n = 0 ifTrue: [0] ifFalse: [b value: n - 1]]. b value: 1998 => 0
| b | b := [:n | n = 0 ifTrue: [0] ifFalse: [b value: n - 1]]. b value: 1999 => error E14 \
    depth
| i b | i := 0. b := [i < 5]. b whileTrue: [i := i + 1]. i => 5
| i | i := 5. [i <= 0] whileFalse: [i := i - 1]. i => 0
| a b | a := 1. b := [a := a + 1]. b value. b value. a => 3
| a b | 1 to: 3 do: [:i | i = 1 ifTrue: [a := [i]]. i = 3 ifTrue: [b := [i]]]. a value + b \
    value => 4
| b | b := [b value]. b value => error E14 depth
| b | b := [:x :y | b value: x value: y]. b value: 1 value: 2 => error E14 depth
| b | b := [:n | n = 0 ifTrue: [[:x | x] value] ifFalse: [b value: n - 1]]. b value: 1998 => \
    error E9 block argument count
| b | b := [:n | n = 0 ifTrue: [3 abs] ifFalse: [b value: n - 1]]. b value: 1998 => error E14 \
    depth
| b | b := [:n | n = 0 ifTrue: [3 abs] ifFalse: [b value: n - 1]]. b value: 1997 => 3
| b | b := [:n | n = 0 ifTrue: ['a' size] ifFalse: [b value: n - 1]]. b value: 1998 => 1
| b | b := [:n | n = 0 ifTrue: [3 foo] ifFalse: [b value: n - 1]]. b value: 1998 => error E1 \
    not understood: foo
";

/// Arrays and OrderedCollections.
pub const SEQUENCES: &str = "\
(Array new: 3) size => 3
#(1 2 3) size => 3
Array new size => 0
OrderedCollection new size => 0
#(7 8 9) at: 1 => 7
#(7 8 9) at: 3 => 9
#(7 8 9) at: 0 => error E4 index
#(7 8 9) at: 4 => error E4 index
#(7 8 9) at: -1 => error E4 index
#(7 8 9) at: #a => error E5 argument kind
#(7 8 9) at: nil => error E5 argument kind
| a | a := Array new: 2. a at: 2 put: 5 => 5
| a | a := Array new: 2. a at: 2 put: 5. a => #(nil 5)
(Array new: 2) at: 3 put: 1 => error E4 index
(Array new: 2) at: $a put: 1 => error E5 argument kind
(Array new: 2) at: 1 put: [1] => error E12 block stored
(Array new: 2) at: 3 put: [1] => error E12 block stored
(Array new: 2) at: $a put: [1] => error E5 argument kind
| c | c := OrderedCollection new. c add: 3 => 3
| c | c := OrderedCollection new. c add: 3; add: 4. c size => 2
| c | c := OrderedCollection new. c addFirst: 5 => 5
| c | c := OrderedCollection new. c add: 3; addFirst: 5. c at: 1 => 5
| c | c := OrderedCollection new. c add: 3; addFirst: 5. c at: 2 => 3
OrderedCollection new add: [1] => error E12 block stored
OrderedCollection new addFirst: [1] => error E12 block stored
| c | c := OrderedCollection new. c add: 3; add: 4. c removeFirst => 3
| c | c := OrderedCollection new. c add: 3; add: 4. c removeFirst. c at: 1 => 4
| c | c := OrderedCollection new. c add: 3; add: 4. c removeLast => 4
| c | c := OrderedCollection new. c add: 3; add: 4. c removeLast. c size => 1
OrderedCollection new removeFirst => error E4 index
OrderedCollection new removeLast => error E4 index
(Array new: 1) add: 3 => error E1 not understood: add:
(Array new: 1) removeFirst => error E1 not understood: removeFirst
#(1 2 3 4) copyFrom: 2 to: 3 => #(2 3)
#(1 2 3 4) copyFrom: 1 to: 0 => #()
#(1 2 3 4) copyFrom: 5 to: 4 => #()
#(1 2 3 4) copyFrom: 0 to: 2 => error E4 index
#(1 2 3 4) copyFrom: 1 to: 5 => error E4 index
#(1 2 3 4) copyFrom: 4 to: 2 => error E4 index
#(1 2 3 4) copyFrom: $a to: 2 => error E5 argument kind
#(1 2 3 4) copyFrom: 1 to: nil => error E5 argument kind
#(1 2) , #(3) => #(1 2 3)
#(1) , (OrderedCollection new add: 2; yourself) => #(1 2)
(OrderedCollection new , #(1)) class => OrderedCollection
#(1) , 'a' => error E5 argument kind
#(1) , 3 => error E5 argument kind
#(1) , Object => error E5 argument kind
| a | a := Array new: 65000. (a , #(1)) size => error E17 object too large
| c | c := OrderedCollection new: 65000. c add: 1 => error E17 object too large
#(1 2 3) => #(1 2 3)
#(1 (2 3) 'a' $b #c d e: + nil true) => #(1 an Array 'a' $b #c #d #e: #+ nil true)
#() isEmpty => true
#(1) notEmpty => true
#(1 2 3) collect: [:x | x * x] => #(1 4 9)
(#(1 2 3 4) select: [:x | x even]) size => 2
#(1 2 3) inject: 0 into: [:a :b | a + b] => 6
#(1 2 3) detect: [:x | x > 1] ifNone: [0] => 2
#(1) detect: [:x | x > 1] ifNone: [0] => 0
#(1 2) includes: 2 => true
#(1 2) includes: 3 => false
#(1 2) first => 1
#(1 2) last => 2
Array new first => error E4 index
#(1 2) do: [:x | x] => #(1 2)
OrderedCollection new at: 1 => error E4 index
| c | c := OrderedCollection new: 2. c at: 2 put: 9. c at: 2 => 9
| c | c := OrderedCollection new: 65000. c addFirst: 1 => error E17 object too large
| r | r := (Array subclass: #Row instVarNames: #(a) inDictionary: UserGlobals) new: 2. r at: \
    1 put: 5. (r at: 1) + r size => 7
| r | r := (Array subclass: #Row instVarNames: #(a) inDictionary: UserGlobals) new: 2. r at: \
    3 => error E4 index
| r | r := (Array subclass: #Row instVarNames: #(a) inDictionary: UserGlobals) new: 2. (r , \
    #(8)) at: 3 => 8
((OrderedCollection new: 3) copyFrom: 1 to: 2) class => OrderedCollection
| a s | s := (String new: 1000) asSymbol. a := Array new: 1100. 1 to: 1045 do: [:i | a at: i \
    put: s] => 1
| a s | s := (String new: 1000) asSymbol. a := Array new: 1100. 1 to: 1046 do: [:i | a at: i \
    put: s] => error E17 object too large
";

/// Strings and Symbols.
pub const STRINGS: &str = "\
'abc' size => 3
#abc size => 3
'' size => 0
'abc' at: 1 => $a
#abc at: 3 => $c
'abc' at: 0 => error E4 index
'abc' at: 4 => error E4 index
'abc' at: #a => error E5 argument kind
| s | s := 'abc' copy. s at: 1 put: $z => $z
| s | s := 'abc' copy. s at: 1 put: $z. s => 'zbc'
'abc' at: 4 put: $a => error E4 index
'abc' at: $a put: $b => error E5 argument kind
'abc' at: 1 put: 3 => error E5 argument kind
'abc' at: 1 put: [1] => error E5 argument kind
#abc at: 1 put: $z => error E1 not understood: at:put:
'ab' , 'cd' => 'abcd'
'ab' , #cd => 'abcd'
#ab , 'cd' => 'abcd'
'ab' , 3 => error E5 argument kind
'ab' , #(1) => error E5 argument kind
'abcd' copyFrom: 2 to: 3 => 'bc'
#abcd copyFrom: 1 to: 2 => 'ab'
'abcd' copyFrom: 1 to: 0 => ''
'abcd' copyFrom: 5 to: 4 => ''
'abcd' copyFrom: 0 to: 1 => error E4 index
'abcd' copyFrom: 2 to: 5 => error E4 index
'abcd' copyFrom: nil to: 2 => error E5 argument kind
'abcd' copyFrom: 2 to: #a => error E5 argument kind
'abc' asSymbol => #abc
#abc asSymbol => #abc
(String new: 1000) asSymbol size => 1000
(String new: 1001) asSymbol => error E5 argument kind
#abc asString => 'abc'
'abc' asString => 'abc'
'abc' = 'abc' => true
'abc' = 'abd' => false
'abc' = #abc => false
#abc = #abc => true
#abc = 'abc' => false
#abc = nil => false
'abc' = [1] => false
'abc' = 3 => false
'abc' = #(1) => false
'abc' < 'abd' => true
'abc' < 'abc' => false
'ab' < 'abc' => true
'B' < 'a' => true
#a < 'b' => true
'a' < 3 => error E5 argument kind
'42' asInteger => 42
'-42' asInteger => -42
'007' asInteger => 7
'4x' asInteger => nil
'' asInteger => nil
'-' asInteger => nil
'+4' asInteger => nil
'1152921504606846975' asInteger => 1152921504606846975
'1152921504606846976' asInteger => nil
'-1152921504606846976' asInteger => -1152921504606846976
'99999999999999999999999999' asInteger => nil
#a asInteger => error E1 not understood: asInteger
#abc at: 4 => error E4 index
((String new: 1048554) , 'a') size => 1048555
(String new: 1048555) , 'a' => error E17 object too large
'-0' asInteger => 0
";

/// Classes and new objects.
pub const CLASSES: &str = "\
Object new => an Object
Magnitude new => a Magnitude
Array new => #()
OrderedCollection new => an OrderedCollection
String new => ''
IdentityDictionary new => an IdentityDictionary
SymbolDictionary new => a SymbolDictionary
Segment new => a Segment
RcCounter new => a RcCounter
RcIdentityBag new => a RcIdentityBag
RcKeyValueDictionary new => a RcKeyValueDictionary
RcQueue new => a RcQueue
UserProfile new => error E5 argument kind
Class new => error E5 argument kind
SmallInteger new => error E5 argument kind
Boolean new => error E5 argument kind
Segment new owner == System myUserProfile => true
Segment new ownerAuthorization => #write
Segment new worldAuthorization => #none
Array new: 2 => #(nil nil)
Array new: 0 => #()
(OrderedCollection new: 2) size => 2
(String new: 3) size => 3
((String new: 3) at: 1) asInteger => 0
Array new: -1 => error E4 index
Array new: nil => error E5 argument kind
Object new: 3 => error E5 argument kind
RcQueue new: 3 => error E5 argument kind
(Array new: 65000) size => 65000
Array new: 65001 => error E17 object too large
Array new: 1152921504606846975 => error E17 object too large
(String new: 1048555) size => 1048555
String new: 1048556 => error E17 object too large
String new: 1152921504606846975 => error E17 object too large
30 timesRepeat: [String new: 1048000]. 7 => 7
31 timesRepeat: [String new: 1048000]. 7 => error E15 space
Object subclass: #Foo instVarNames: #(a b) inDictionary: UserGlobals => Foo
(Object subclass: #Foo instVarNames: #(a b) inDictionary: UserGlobals) new => a Foo
(Object subclass: #Area instVarNames: #() inDictionary: UserGlobals) new => an Area
((Array subclass: #Row instVarNames: #(a b) inDictionary: UserGlobals) new: 3) size => 3
(Array subclass: #Row instVarNames: #(a) inDictionary: UserGlobals) new: 1 => a Row
(String subclass: #Word instVarNames: #() inDictionary: UserGlobals) new => ''
Object subclass: #Foo instVarNames: #() inDictionary: UserGlobals. Foo => Foo
Object subclass: #foo instVarNames: #() inDictionary: UserGlobals => error E5 argument kind
Object subclass: 'Foo' instVarNames: #() inDictionary: UserGlobals => error E5 argument kind
Object subclass: #a:b: instVarNames: #() inDictionary: UserGlobals => error E5 argument kind
Object subclass: #Foo instVarNames: #(a a) inDictionary: UserGlobals => error E5 argument kind
Object subclass: #Foo instVarNames: #(1) inDictionary: UserGlobals => error E5 argument kind
Object subclass: #Foo instVarNames: nil inDictionary: UserGlobals => error E5 argument kind
Object subclass: #Foo instVarNames: OrderedCollection new inDictionary: UserGlobals => error \
    E5 argument kind
Object subclass: #Foo instVarNames: #() inDictionary: 3 => error E5 argument kind
SmallInteger subclass: #Foo instVarNames: #() inDictionary: UserGlobals => error E5 argument \
    kind
Segment subclass: #Foo instVarNames: #() inDictionary: UserGlobals => error E5 argument kind
UserProfile subclass: #Foo instVarNames: #() inDictionary: UserGlobals => error E5 argument \
    kind
String subclass: #Foo instVarNames: #(a) inDictionary: UserGlobals => error E5 argument kind
(Object subclass: #Foo instVarNames: #(x) inDictionary: UserGlobals) subclass: #Bar \
    instVarNames: #(x) inDictionary: UserGlobals => error E5 argument kind
(Object subclass: #Foo instVarNames: #(x) inDictionary: UserGlobals) subclass: #Bar \
    instVarNames: #(y) inDictionary: UserGlobals => Bar
Object name => #Object
(Object subclass: #Foo instVarNames: #() inDictionary: UserGlobals) name => #Foo
Object superclass => nil
Array superclass => SequenceableCollection
Object instVarNames => #()
(Object subclass: #Foo instVarNames: #(a b) inDictionary: UserGlobals) instVarNames => #(#a \
    #b)
Boolean selectors => #(#& #|)
True selectors size => 7
Boolean includesSelector: #& => true
Boolean includesSelector: #not => false
Object includesSelector: 'foo' => error E5 argument kind
Object removeSelector: #isNil => error E11 no write right: 0:1
(Object subclass: #Foo instVarNames: #() inDictionary: UserGlobals) removeSelector: #x => \
    error E18 key absent
(Object subclass: #Foo instVarNames: #() inDictionary: UserGlobals) removeSelector: 3 => \
    error E5 argument kind
String new: -1 => error E4 index
String new: nil => error E5 argument kind
IdentityDictionary subclass: #D instVarNames: #(a) inDictionary: UserGlobals => error E5 \
    argument kind
(RcCounter subclass: #Tally instVarNames: #() inDictionary: UserGlobals) new => a Tally
Object subclass: #Foo instVarNames: #(a:) inDictionary: UserGlobals => error E5 argument kind
Object removeSelector: 3 => error E11 no write right: 0:1
| a | a := Array new: 200. 1 to: 200 do: [:i | a at: i put: ('a' , i printString) asSymbol]. \
    Object subclass: #Foo instVarNames: a inDictionary: UserGlobals => Foo
| a | a := Array new: 201. 1 to: 201 do: [:i | a at: i put: ('a' , i printString) asSymbol]. \
    Object subclass: #Foo instVarNames: a inDictionary: UserGlobals => error E5 argument kind
| a | a := Array new: 200. 1 to: 200 do: [:i | a at: i put: ('a' , i printString) asSymbol]. \
    (Object subclass: #Foo instVarNames: a inDictionary: UserGlobals) subclass: #Bar \
    instVarNames: #(z) inDictionary: UserGlobals => error E5 argument kind
";

/// IdentityDictionaries.
pub const DICTIONARIES: &str = "\
| d | d := IdentityDictionary new. d at: #a put: 1; at: #b put: 2. d at: #a => 1
IdentityDictionary new at: #c => error E18 key absent
IdentityDictionary new at: nil => error E5 argument kind
IdentityDictionary new at: [1] => error E12 block stored
IdentityDictionary new at: #a put: 7 => 7
IdentityDictionary new at: nil put: 1 => error E5 argument kind
IdentityDictionary new at: nil put: [1] => error E5 argument kind
IdentityDictionary new at: [1] put: 1 => error E12 block stored
IdentityDictionary new at: #x put: [1] => error E12 block stored
| d | d := IdentityDictionary new. d at: 'x' put: 1. d at: 'x' => error E18 key absent
| d k | d := IdentityDictionary new. k := 'x'. d at: k put: 1. d at: k => 1
| d | d := IdentityDictionary new. d at: 3 put: 4; at: $a put: 5. d at: $a => 5
| d | d := IdentityDictionary new. d at: #a put: 1. d includesKey: #a => true
IdentityDictionary new includesKey: #z => false
IdentityDictionary new includesKey: nil => error E5 argument kind
IdentityDictionary new includesKey: [1] => error E12 block stored
| d | d := IdentityDictionary new. d at: #a put: 1. d removeKey: #a => 1
| d | d := IdentityDictionary new. d at: #a put: 1. d removeKey: #a. d size => 0
IdentityDictionary new removeKey: #z => error E18 key absent
IdentityDictionary new removeKey: nil => error E5 argument kind
IdentityDictionary new removeKey: [1] => error E12 block stored
IdentityDictionary new size => 0
| d | d := IdentityDictionary new. d at: #a put: 1; at: #b put: 2. d keys => #(#a #b)
| d | d := IdentityDictionary new. d at: #a put: 1; at: #b put: 2. d values => #(1 2)
| d | d := IdentityDictionary new. d at: #a put: 1; at: #b put: 2; at: #a put: 9. d values \
    => #(9 2)
| d | d := IdentityDictionary new. d at: #a put: 1; at: #b put: 2; removeKey: #a; at: #a \
    put: 3. d keys => #(#b #a)
IdentityDictionary new at: #a ifAbsent: [5] => 5
| d s | s := 0. d := IdentityDictionary new. d at: #a put: 3; at: #b put: 4. d \
    keysAndValuesDo: [:k :v | s := s + v]. s => 7
| d s | s := (String new: 1000) asSymbol. d := IdentityDictionary new. 1 to: 1036 do: [:i | \
    d at: i put: s] => 1
| d s | s := (String new: 1000) asSymbol. d := IdentityDictionary new. 1 to: 1037 do: [:i | \
    d at: i put: s] => error E17 object too large
";
