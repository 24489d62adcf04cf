//! The primitives.
ghost use Rattle.std.specs.Prelude.{◌≡◌, ◌≤◌, ◌↔◌, map, slice_get, IsSome, IfSome};
ghost use Rattle.std.specs.Option.{option_map};
ghost use Rattle.op_table.specs.Prims.{primitive_of, primitives, prim_at};

/// Which receivers a primitive has: the instances of a class and of those under it, except for the
/// two class sides.
#[derive(Clone, Copy, Debug, PartialEq, Eq, Hash)]
pub enum Kind {
    /// Any receiver.
    Any,
    /// A SmallInteger.
    Integer,
    /// A Character.
    Character,
    /// A block.
    Block,
    /// An Array or an OrderedCollection.
    Sequence,
    /// An OrderedCollection.
    Ordered,
    /// A String or a Symbol.
    Chars,
    /// A String.
    Str,
    /// A class object.
    Class,
    /// An IdentityDictionary.
    Dictionary,
    /// A Segment.
    Segment,
    /// A UserProfile.
    User,
    /// The class UserProfile, or a class under it.
    UserClass,
    /// The class System, or a class under it.
    SystemClass,
    /// Transcript.
    Transcript,
    /// An RcCounter.
    Counter,
    /// An RcIdentityBag.
    Bag,
    /// An RcKeyValueDictionary.
    RcDict,
    /// An RcQueue.
    Queue,
}

/// A primitive.
#[derive(Clone, Copy, Debug, PartialEq, Eq, Hash)]
pub struct PrimRow {
    /// From 1 to 96.
    pub number: u8,
    /// The selector under which it stands in its classes.
    pub selector: &'static str,
    /// How many arguments it takes.
    pub args: u8,
    /// What receivers it is for.
    pub receiver: Kind,
}

macro_rules! table {
    ($($number:literal $selector:literal $args:literal $receiver:ident)*) => {
        [$(PrimRow {
            number: $number,
            selector: $selector,
            args: $args,
            receiver: Kind::$receiver,
        }),*]
    };
}

// The table of the primitives, in the order of their numbers.
fn prim_table() -> &'static [PrimRow]
    ensures { map primitive_of result.now ≡ primitives }
{
    // Number, selector, number of arguments, receivers.
    static ROWS: [PrimRow; 96] = table! {
        1 "==" 1 Any
        2 "=" 1 Any
        3 "class" 0 Any
        4 "printString" 0 Any
        5 "error:" 1 Any
        6 "isKindOf:" 1 Any
        7 "copy" 0 Any
        8 "segment" 0 Any
        9 "assignToSegment:" 1 Any
        10 "+" 1 Integer
        11 "-" 1 Integer
        12 "*" 1 Integer
        13 "//" 1 Integer
        14 "\\\\" 1 Integer
        15 "quo:" 1 Integer
        16 "rem:" 1 Integer
        17 "<" 1 Integer
        18 ">" 1 Integer
        19 "<=" 1 Integer
        20 ">=" 1 Integer
        21 "bitAnd:" 1 Integer
        22 "bitOr:" 1 Integer
        23 "bitXor:" 1 Integer
        24 "bitShift:" 1 Integer
        25 "asCharacter" 0 Integer
        26 "printString:" 1 Integer
        27 "asInteger" 0 Character
        28 "value" 0 Block
        29 "value:" 1 Block
        30 "value:value:" 2 Block
        31 "value:value:value:" 3 Block
        32 "numArgs" 0 Block
        33 "size" 0 Sequence
        34 "at:" 1 Sequence
        35 "at:put:" 2 Sequence
        36 "add:" 1 Ordered
        37 "addFirst:" 1 Ordered
        38 "removeFirst" 0 Ordered
        39 "removeLast" 0 Ordered
        40 "copyFrom:to:" 2 Sequence
        41 "," 1 Sequence
        42 "size" 0 Chars
        43 "at:" 1 Chars
        44 "at:put:" 2 Str
        45 "," 1 Chars
        46 "copyFrom:to:" 2 Chars
        47 "asSymbol" 0 Chars
        48 "asString" 0 Chars
        49 "=" 1 Chars
        50 "<" 1 Chars
        51 "asInteger" 0 Str
        52 "new" 0 Class
        53 "new:" 1 Class
        54 "subclass:instVarNames:inDictionary:" 3 Class
        55 "name" 0 Class
        56 "superclass" 0 Class
        57 "instVarNames" 0 Class
        58 "selectors" 0 Class
        59 "includesSelector:" 1 Class
        60 "removeSelector:" 1 Class
        61 "at:" 1 Dictionary
        62 "at:put:" 2 Dictionary
        63 "includesKey:" 1 Dictionary
        64 "removeKey:" 1 Dictionary
        65 "size" 0 Dictionary
        66 "keys" 0 Dictionary
        67 "values" 0 Dictionary
        68 "owner" 0 Segment
        69 "ownerAuthorization:" 1 Segment
        70 "worldAuthorization:" 1 Segment
        71 "group:authorization:" 2 Segment
        72 "ownerAuthorization" 0 Segment
        73 "worldAuthorization" 0 Segment
        74 "userId" 0 User
        75 "groups" 0 User
        76 "addGroup:" 1 User
        77 "removeGroup:" 1 User
        78 "defaultSegment" 0 User
        79 "newUser:" 1 UserClass
        80 "myUserProfile" 0 SystemClass
        81 "show:" 1 Transcript
        82 "cr" 0 Transcript
        83 "value" 0 Counter
        84 "incrementBy:" 1 Counter
        85 "add:" 1 Bag
        86 "remove:" 1 Bag
        87 "occurrencesOf:" 1 Bag
        88 "asArray" 0 Bag
        89 "at:" 1 RcDict
        90 "at:put:" 2 RcDict
        91 "removeKey:" 1 RcDict
        92 "includesKey:" 1 RcDict
        93 "keys" 0 RcDict
        94 "add:" 1 Queue
        95 "remove" 0 Queue
        96 "asArray" 0 Queue
    };
    &ROWS
}

/// The primitive of a number. It takes no memory.
pub fn prim_row(number: u8) -> Option<PrimRow>
    ensures value { option_map primitive_of result ≡ prim_at number }
    ensures some { IsSome result ↔ ((1 ≤ number) × (number ≤ 96)) }
    ensures number { IfSome result (λ row. row.number ≡ number) }
{
    row_in(prim_table(), usize::from(number.checked_sub(1)?))
}

fn row_in(rows: &[PrimRow], place: usize) -> Option<PrimRow>
    ensures { result ≡ slice_get rows.now place }
{
    rows.get(place).copied()
}
