// Scripts of several commands on one state, with what each is replied to: `run`, `print`, `method`
// and `class` (a method of the class side) with a class and a source. An empty line begins anew.

/// Methods, instance variables, returns and look-up.
pub const SCRIPTS: &str = "\
run Object subclass: #Maker instVarNames: #() inDictionary: UserGlobals => ok
method Maker make ^[^5] => method make
print Maker new make value => error E8 dead home

run Globals at: #T put: 3. 1152921504606846975 + 1 => error E6 integer range
print T => 3

run UserGlobals at: #K put: 7. 1 to: 999999 do: [:i | ] => error E13 send budget
print K => 7

run Object subclass: #Account instVarNames: #(balance) inDictionary: UserGlobals => ok
method Account balance ^balance isNil ifTrue: [0] ifFalse: [balance] => method balance
method Account post: n balance := self balance + n. ^balance => method post:
method Account keep: b balance := b => method keep:
method Account lose other := 3 => method lose
run UserGlobals at: #A put: Account new => ok
print A balance => 0
print A post: 10 => 10
print A post: 5 => 15
print A balance => 15
print A keep: [1] => error E12 block stored
print A balance => 15
print A lose => error E2 undefined variable: other
print Account selectors => #(#balance #keep: #lose #post:)
print Account includesSelector: #post: => true
print Account removeSelector: #post: => Account
print A post: 1 => error E1 not understood: post:
print A => an Account

run Object subclass: #Animal instVarNames: #(name) inDictionary: UserGlobals => ok
run Animal subclass: #Dog instVarNames: #(age) inDictionary: UserGlobals => ok
method Animal sound ^'none' => method sound
method Animal describe ^self sound , '!' => method describe
method Dog sound ^super sound , ' woof' => method sound
method Dog setAge: n age := n. name := n => method setAge:
method Dog age ^age + name => method age
print Dog new describe => 'none woof!'
print (Dog new setAge: 4; yourself) age => 8
print Dog superclass => Animal
class Animal named ^self new describe => method named
print Animal named => 'none!'
print Dog named => 'none woof!'
class Dog named ^super named , ' dog' => method named
print Dog named => 'none woof! dog'
class Animal count ^name => method count
print Animal count => error E2 undefined variable: name
print Animal new isKindOf: Dog => false
print Dog new isKindOf: Animal => true

run Object subclass: #Deep instVarNames: #() inDictionary: UserGlobals => ok
method Deep down: n n = 0 ifTrue: [^0]. ^self down: n - 1 => method down:
print Deep new down: 1998 => 0
print Deep new down: 1999 => error E14 depth
print Deep new down: 5 => 0
method Deep sum: n | t | t := n. n = 0 ifTrue: [^t]. \
1 to: 2 do: [:i | | u | u := i. t := t + u]. ^(self sum: n - 1) + t => method sum:
print Deep new sum: 3 => 15
method Deep kept: n | t | t := n. [:x | t := t + x] value: 1. n = 0 ifTrue: [^t]. \
^(self kept: n - 1) + t => method kept:
print Deep new kept: 3 => 10

run Object subclass: #Base instVarNames: #(a) inDictionary: UserGlobals => ok
run Base subclass: #Mid instVarNames: #(b) inDictionary: UserGlobals => ok
run UserGlobals at: #P put: Mid new; at: #G put: 5; at: #S put: Segment new => ok
method Base a ^a => method a
method Base put: n a := n => method put:
method Mid b ^b => method b
method Mid me: x also: y | t u | ^self => method me:also:
method Mid none: x ^nil => method none:
method Mid arg: a ^a => method arg:
method Mid g ^G => method g
method Mid missing ^nowhere => method missing
method Mid empty => method empty
class Base a ^a => method a
print P a => nil
print (P put: 7; yourself) a => 7
print P b => nil
print P arg: 4 => 4
print 2 + (P me: 3 also: 4) a => 9
print P empty => a Mid
print P g => 5
print P missing => error E2 undefined variable: nowhere
print Mid a => error E2 undefined variable: a
run UserGlobals at: #a put: 3 => ok
print Mid a => 3
print P a => 7
method Base down: n n = 0 ifTrue: [^self a]. ^self down: n - 1 => method down:
print P down: 1997 => 7
print P down: 1998 => error E14 depth
method Mid sink: n n = 0 ifTrue: [^self missing]. ^self sink: n - 1 => method sink:
print P sink: 1997 => error E2 undefined variable: nowhere
print P sink: 1998 => error E14 depth
run Base assignToSegment: S. S ownerAuthorization: #none => ok
print P none: 3 => nil
print P b => error E10 no read right: 1:2
run S ownerAuthorization: #read => ok
print P b => nil

run Object subclass: #Loop instVarNames: #() inDictionary: UserGlobals => ok
method Loop find: x in: all all do: [:each | each = x ifTrue: [^each]]. ^nil => method find:in:
print Loop new find: 3 in: #(1 2 3) => 3
print Loop new find: 7 in: #(1 2 3) => nil

method Nope foo ^1 => error E2 undefined variable: Nope
method Object foo ^1 => error E11 no write right: 0:1
run UserGlobals at: #N put: 3 => ok
method N foo ^1 => error E5 argument kind
print 3 + => parse P4 at 3
print 'ab => parse P2 at 0
print 3 foo: => parse P4 at 6

run UserGlobals at: #C put: 1 => ok
run 1 to: 999998 do: [:i | ]. 3 foo: (UserGlobals at: #C put: 5) => error E13 send budget
print C => 5
run 1 to: 999999 do: [:i | ]. [UserGlobals at: #C put: 7. false] whileTrue: [] => error E13 send \
    budget
print C => 5

run | s | s := Segment new. UserGlobals at: #S put: s. (Object subclass: #Foo instVarNames: #() \
    inDictionary: UserGlobals) assignToSegment: s. s ownerAuthorization: #read => ok
method Foo bar ^1 => error E11 no write right: 1:3
run S ownerAuthorization: #none => ok
method Foo bar ^1 => error E10 no read right: 1:3
";

/// One script, where no more than two names are left.
pub const NAMES_LEFT: &str = "\
print UserProfile newUser: #DataCurator => error E5 argument kind
print UserProfile newUser: #Al => error E16 names used up
print Array new: 1. Array new: 1 => #(nil)
print Array new: 1 => error E16 names used up
print Array new: 65001 => error E17 object too large
print 'a' => error E16 names used up
";
