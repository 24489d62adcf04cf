//! The kernel's classes and their methods, as a table.
ghost use Rattle.std.specs.Prelude.{◌≡◌, map, take};
ghost use Rattle.kernel_image.specs.Names.{kernel_names};
ghost use Rattle.gem_sound.specs.Kernel.{kernel_classes};
ghost use Rattle.kernel_image.specs.Objects.{class_list};
ghost use Rattle.kernel_image.specs.Rows.{class_of_row, kernel_class_of, names_of_rows};

use gem_object::Kind;

/// What a method does.
#[derive(Clone, Copy)]
pub(crate) enum CodeRow {
    /// It is evaluated from this source.
    Source(&'static str),
    /// It is the primitive of this number.
    Primitive(u8),
}

/// A method.
#[derive(Clone, Copy)]
pub(crate) struct MethodRow {
    pub(crate) selector: &'static str,
    pub(crate) code: CodeRow,
}

/// A class.
#[derive(Clone, Copy)]
pub(crate) struct ClassRow {
    pub(crate) name: &'static str,
    /// The counter of its superclass.
    pub(crate) superclass: Option<u32>,
    pub(crate) kind: Kind,
    /// The methods of its instances, ascending by selector.
    pub(crate) methods: &'static [MethodRow],
    /// Its own methods, ascending by selector.
    pub(crate) class_methods: &'static [MethodRow],
}

macro_rules! methods {
    ($($selector:literal $code:ident($value:expr))*) => {
        [$(MethodRow {
            selector: $selector,
            code: CodeRow::$code($value),
        }),*]
    };
}

macro_rules! classes {
    ($($name:literal $superclass:expr, $kind:ident $methods:expr, $class_methods:expr;)*) => {
        [$(ClassRow {
            name: $name,
            superclass: $superclass,
            kind: Kind::$kind,
            methods: $methods,
            class_methods: $class_methods,
        }),*]
    };
}

static OBJECT: [MethodRow; 14] = methods! {
    "=" Primitive(2)
    "==" Primitive(1)
    "assignToSegment:" Primitive(9)
    "class" Primitive(3)
    "copy" Primitive(7)
    "error:" Primitive(5)
    "isKindOf:" Primitive(6)
    "isNil" Source("isNil ^false")
    "notNil" Source("notNil ^true")
    "printString" Primitive(4)
    "segment" Primitive(8)
    "yourself" Source("yourself ^self")
    "~=" Source("~= x ^(self = x) not")
    "~~" Source("~~ x ^(self == x) not")
};

static CLASS: [MethodRow; 9] = methods! {
    "includesSelector:" Primitive(59)
    "instVarNames" Primitive(57)
    "name" Primitive(55)
    "new" Primitive(52)
    "new:" Primitive(53)
    "removeSelector:" Primitive(60)
    "selectors" Primitive(58)
    "subclass:instVarNames:inDictionary:" Primitive(54)
    "superclass" Primitive(56)
};

static UNDEFINED_OBJECT: [MethodRow; 2] = methods! {
    "isNil" Source("isNil ^true")
    "notNil" Source("notNil ^false")
};

static BOOLEAN: [MethodRow; 2] = methods! {
    "&" Source("& x ^self and: [x]")
    "|" Source("| x ^self or: [x]")
};

static TRUE: [MethodRow; 7] = methods! {
    "and:" Source("and: b ^b value")
    "ifFalse:" Source("ifFalse: b ^nil")
    "ifFalse:ifTrue:" Source("ifFalse: a ifTrue: b ^b value")
    "ifTrue:" Source("ifTrue: b ^b value")
    "ifTrue:ifFalse:" Source("ifTrue: a ifFalse: b ^a value")
    "not" Source("not ^false")
    "or:" Source("or: b ^true")
};

static FALSE: [MethodRow; 7] = methods! {
    "and:" Source("and: b ^false")
    "ifFalse:" Source("ifFalse: b ^b value")
    "ifFalse:ifTrue:" Source("ifFalse: a ifTrue: b ^a value")
    "ifTrue:" Source("ifTrue: b ^nil")
    "ifTrue:ifFalse:" Source("ifTrue: a ifFalse: b ^b value")
    "not" Source("not ^true")
    "or:" Source("or: b ^b value")
};

static MAGNITUDE: [MethodRow; 3] = methods! {
    "between:and:" Source("between: a and: b ^self >= a and: [self <= b]")
    "max:" Source("max: x ^self > x ifTrue: [self] ifFalse: [x]")
    "min:" Source("min: x ^self < x ifTrue: [self] ifFalse: [x]")
};

static CHARACTER: [MethodRow; 7] = methods! {
    "<" Source("< c ^self asInteger < c asInteger")
    "<=" Source("<= c ^self asInteger <= c asInteger")
    ">" Source("> c ^self asInteger > c asInteger")
    ">=" Source(">= c ^self asInteger >= c asInteger")
    "asInteger" Primitive(27)
    "isDigit" Source("isDigit ^self between: $0 and: $9")
    "isLetter" Source("isLetter ^(self between: $a and: $z) or: [self between: $A and: $Z]")
};

static SMALL_INTEGER: [MethodRow; 24] = methods! {
    "*" Primitive(12)
    "+" Primitive(10)
    "-" Primitive(11)
    "//" Primitive(13)
    "<" Primitive(17)
    "<=" Primitive(19)
    ">" Primitive(18)
    ">=" Primitive(20)
    "\\\\" Primitive(14)
    "abs" Source("abs ^self < 0 ifTrue: [0 - self] ifFalse: [self]")
    "asCharacter" Primitive(25)
    "asString" Source("asString ^self printString")
    "bitAnd:" Primitive(21)
    "bitOr:" Primitive(22)
    "bitShift:" Primitive(24)
    "bitXor:" Primitive(23)
    "even" Source("even ^self \\\\ 2 = 0")
    "negated" Source("negated ^0 - self")
    "odd" Source("odd ^self \\\\ 2 = 1")
    "printString:" Primitive(26)
    "quo:" Primitive(15)
    "rem:" Primitive(16)
    "timesRepeat:" Source("timesRepeat: b 1 to: self do: [:i | b value]")
    "to:do:" Source("to: n do: b 1 to: n - self + 1 do: [:i | b value: self + i - 1]")
};

static BLOCK: [MethodRow; 7] = methods! {
    "numArgs" Primitive(32)
    "value" Primitive(28)
    "value:" Primitive(29)
    "value:value:" Primitive(30)
    "value:value:value:" Primitive(31)
    "whileFalse:" Source("whileFalse: b ^[self value] whileFalse: [b value]")
    "whileTrue:" Source("whileTrue: b ^[self value] whileTrue: [b value]")
};

static COLLECTION: [MethodRow; 2] = methods! {
    "isEmpty" Source("isEmpty ^self size = 0")
    "notEmpty" Source("notEmpty ^self size > 0")
};

static SEQUENCEABLE_COLLECTION: [MethodRow; 8] = methods! {
    "collect:" Source(concat!(
        "collect: b | r | r := Array new: self size. ",
        "1 to: self size do: [:i | r at: i put: (b value: (self at: i))]. ^r"
    ))
    "detect:ifNone:" Source(
        "detect: b ifNone: c self do: [:e | (b value: e) ifTrue: [^e]]. ^c value"
    )
    "do:" Source("do: b 1 to: self size do: [:i | b value: (self at: i)]")
    "first" Source("first ^self at: 1")
    "includes:" Source("includes: x self do: [:e | e = x ifTrue: [^true]]. ^false")
    "inject:into:" Source(
        "inject: x into: b | r | r := x. self do: [:e | r := b value: r value: e]. ^r"
    )
    "last" Source("last ^self at: self size")
    "select:" Source(concat!(
        "select: b | r | r := OrderedCollection new. ",
        "self do: [:e | (b value: e) ifTrue: [r add: e]]. ^r"
    ))
};

static ARRAY: [MethodRow; 5] = methods! {
    "," Primitive(41)
    "at:" Primitive(34)
    "at:put:" Primitive(35)
    "copyFrom:to:" Primitive(40)
    "size" Primitive(33)
};

static ORDERED_COLLECTION: [MethodRow; 9] = methods! {
    "," Primitive(41)
    "add:" Primitive(36)
    "addFirst:" Primitive(37)
    "at:" Primitive(34)
    "at:put:" Primitive(35)
    "copyFrom:to:" Primitive(40)
    "removeFirst" Primitive(38)
    "removeLast" Primitive(39)
    "size" Primitive(33)
};

static STRING: [MethodRow; 10] = methods! {
    "," Primitive(45)
    "<" Primitive(50)
    "=" Primitive(49)
    "asInteger" Primitive(51)
    "asString" Primitive(48)
    "asSymbol" Primitive(47)
    "at:" Primitive(43)
    "at:put:" Primitive(44)
    "copyFrom:to:" Primitive(46)
    "size" Primitive(42)
};

static SYMBOL: [MethodRow; 8] = methods! {
    "," Primitive(45)
    "<" Primitive(50)
    "=" Primitive(49)
    "asString" Primitive(48)
    "asSymbol" Primitive(47)
    "at:" Primitive(43)
    "copyFrom:to:" Primitive(46)
    "size" Primitive(42)
};

static IDENTITY_DICTIONARY: [MethodRow; 9] = methods! {
    "at:" Primitive(61)
    "at:ifAbsent:" Source("at: k ifAbsent: b (self includesKey: k) ifTrue: [^self at: k]. ^b value")
    "at:put:" Primitive(62)
    "includesKey:" Primitive(63)
    "keys" Primitive(66)
    "keysAndValuesDo:" Source(
        "keysAndValuesDo: b self keys do: [:k | b value: k value: (self at: k)]"
    )
    "removeKey:" Primitive(64)
    "size" Primitive(65)
    "values" Primitive(67)
};

static RC_COUNTER: [MethodRow; 5] = methods! {
    "decrement" Source("decrement self incrementBy: -1")
    "decrementBy:" Source("decrementBy: n self incrementBy: 0 - n")
    "increment" Source("increment self incrementBy: 1")
    "incrementBy:" Primitive(84)
    "value" Primitive(83)
};

static RC_IDENTITY_BAG: [MethodRow; 7] = methods! {
    "add:" Primitive(85)
    "asArray" Primitive(88)
    "do:" Source("do: b self asArray do: b")
    "includes:" Source("includes: x ^(self occurrencesOf: x) > 0")
    "occurrencesOf:" Primitive(87)
    "remove:" Primitive(86)
    "size" Source("size ^self asArray size")
};

static RC_KEY_VALUE_DICTIONARY: [MethodRow; 8] = methods! {
    "at:" Primitive(89)
    "at:ifAbsent:" Source("at: k ifAbsent: b (self includesKey: k) ifTrue: [^self at: k]. ^b value")
    "at:put:" Primitive(90)
    "includesKey:" Primitive(92)
    "keys" Primitive(93)
    "keysAndValuesDo:" Source(
        "keysAndValuesDo: b self keys do: [:k | b value: k value: (self at: k)]"
    )
    "removeKey:" Primitive(91)
    "size" Source("size ^self keys size")
};

static RC_QUEUE: [MethodRow; 5] = methods! {
    "add:" Primitive(94)
    "asArray" Primitive(96)
    "do:" Source("do: b self asArray do: b")
    "remove" Primitive(95)
    "size" Source("size ^self asArray size")
};

static SEGMENT: [MethodRow; 6] = methods! {
    "group:authorization:" Primitive(71)
    "owner" Primitive(68)
    "ownerAuthorization" Primitive(72)
    "ownerAuthorization:" Primitive(69)
    "worldAuthorization" Primitive(73)
    "worldAuthorization:" Primitive(70)
};

static USER_PROFILE: [MethodRow; 5] = methods! {
    "addGroup:" Primitive(76)
    "defaultSegment" Primitive(78)
    "groups" Primitive(75)
    "removeGroup:" Primitive(77)
    "userId" Primitive(74)
};

static USER_PROFILE_CLASS_SIDE: [MethodRow; 1] = methods! {
    "newUser:" Primitive(79)
};

static SYSTEM_CLASS_SIDE: [MethodRow; 1] = methods! {
    "myUserProfile" Primitive(80)
};

static TRANSCRIPT_STREAM: [MethodRow; 2] = methods! {
    "cr" Primitive(82)
    "show:" Primitive(81)
};

/// The classes, in the order of their numbers.
pub(crate) fn class_rows() -> [ClassRow; 26]
    ensures classes { map class_of_row result ≡ class_list }
    ensures rows { map kernel_class_of result ≡ kernel_classes }
    ensures names { names_of_rows result ≡ take 26 kernel_names }
{
    // The name, the superclass, the kind, the methods of instances, and its own.
    classes! {
        "Object" None, Plain &OBJECT, &[];
        "Class" Some(1), None &CLASS, &[];
        "UndefinedObject" Some(1), None &UNDEFINED_OBJECT, &[];
        "Boolean" Some(1), None &BOOLEAN, &[];
        "True" Some(4), None &TRUE, &[];
        "False" Some(4), None &FALSE, &[];
        "Magnitude" Some(1), Plain &MAGNITUDE, &[];
        "Character" Some(7), None &CHARACTER, &[];
        "SmallInteger" Some(7), None &SMALL_INTEGER, &[];
        "Block" Some(1), None &BLOCK, &[];
        "Collection" Some(1), Plain &COLLECTION, &[];
        "SequenceableCollection" Some(11), Plain &SEQUENCEABLE_COLLECTION, &[];
        "Array" Some(12), Indexed &ARRAY, &[];
        "OrderedCollection" Some(12), Indexed &ORDERED_COLLECTION, &[];
        "String" Some(12), Bytes &STRING, &[];
        "Symbol" Some(12), None &SYMBOL, &[];
        "IdentityDictionary" Some(11), Dict &IDENTITY_DICTIONARY, &[];
        "SymbolDictionary" Some(17), Dict &[], &[];
        "RcCounter" Some(1), Counter &RC_COUNTER, &[];
        "RcIdentityBag" Some(11), Bag &RC_IDENTITY_BAG, &[];
        "RcKeyValueDictionary" Some(11), RcDict &RC_KEY_VALUE_DICTIONARY, &[];
        "RcQueue" Some(11), Queue &RC_QUEUE, &[];
        "Segment" Some(1), Segment &SEGMENT, &[];
        "UserProfile" Some(1), User &USER_PROFILE, &USER_PROFILE_CLASS_SIDE;
        "System" Some(1), None &[], &SYSTEM_CLASS_SIDE;
        "TranscriptStream" Some(1), None &TRANSCRIPT_STREAM, &[];
    }
}
