//! Worked rows of the primitives 1 to 53, and what follows from their rules alone. Each law is the
//! contract of a function that does nothing.
ghost use Rattle.std.specs.Prelude.{◌≡◌, ◌+◌, ◌-◌, ◌%◌, ◌^◌, min, max, ℕ, suc, ℤ, pos, negsuc, neg_ℤ, ◌+ℤ◌, ◌*ℤ◌, ◌≤ℤ◌, ◌<ℤ◌, ◌∷◌, [], List, map, take, Some, None, is_some, option_map, codes, true, false, Bool, ◌||◌, nat_eq};
ghost use Rattle.std.specs.Int.{int_shr};
ghost use Rattle.gem_object.specs.texts.SmallInteger.{is_small_integer};
ghost use Rattle.gem_object.specs.texts.Bytes.{Bytes as Text};
ghost use Rattle.object_programs.specs.op_table.Prims.{primitives};
ghost use Rattle.gem_object.specs.seg_rights.declared.rights.Rights.{Rights};
ghost use Rattle.gem_object.specs.declared.value.Value.{Value};
ghost use Rattle.gem_object.specs.declared.value.Value.TheVariants.{Nil, False, True, Char, Sym, Ref, Block};
ghost use Rattle.gem_object.specs.declared.body.Body.{Body};
ghost use Rattle.gem_object.specs.declared.body.Body.TheVariants.{Plain, Bytes, Counter, Segment};
ghost use Rattle.object_programs.specs.gem_world.World.{Setting, shown};
ghost use Rattle.object_programs.specs.gem_world.Access.{a_read, a_write, is_allowed, accessed};
ghost use Rattle.object_programs.specs.gem_world.Changes.{with_body};
ghost use Rattle.object_programs.specs.Atom.{edited};
ghost use Rattle.object_programs.specs.Run.{State, give, and_then, gives, fails, perform};
ghost use Rattle.object_programs.specs.Programs.{make_object};
ghost use Rattle.object_programs.specs.declared.fault.Fault.TheVariants.{Index, ArgumentKind, IntegerRange, ZeroDivisor, BlockArgumentCount, BlockStored, ObjectTooLarge, NoReadRight, NoWriteRight};
ghost use Rattle.prim_rules.specs.declared.answer.PrimitiveAnswer.TheVariants.{Gives, Evaluates};
ghost use Rattle.prim_rules.specs.Parts.{new_object, answers};
ghost use Rattle.prim_rules.specs.Texts.{quoted, symbol_text, with_article, radix_text, integer_in};
ghost use Rattle.prim_rules.specs.Printing.{is_short, whole_text, print_text};
ghost use Rattle.prim_rules.specs.Indexes.{place_in, part_of};
ghost use Rattle.prim_rules.specs.Any.{print_string_rule, is_moved, gives_write, reads_up, check_segment, row_1, row_7, row_8};
ghost use Rattle.prim_rules.specs.Numbers.{floor_quotient, floor_remainder, bit_of, bits_and, bits_or, bits_xor, shifted, row_10, row_11, row_12, row_13, row_14, row_15, row_16, row_17, row_20, row_21, row_22, row_23, row_24, row_25, row_26, row_27};
ghost use Rattle.prim_rules.specs.Blocks.{row_28, row_29, row_30, row_32};
ghost use Rattle.prim_rules.specs.Sequences.{row_33, row_34, row_35, row_38, row_39, row_40};
ghost use Rattle.prim_rules.specs.Strings.{row_42, row_43, row_49, row_50, row_51};
ghost use Rattle.prim_rules.specs.New.{new_body, sized_body, own_rights, new_segment, row_52, row_53};
ghost use Rattle.prim_rules.specs.FirstRules.{first_rules};
ghost use Rattle.prim_rules.specs.Worked.{int, minus, NoBlocks, AlwaysEnds, Answers, Refuses, Prints, MayAccess, HasPair, string_in, array_in, class_in, class_called, class_under, segment_of, profile_in, after, ends, prints};
ghost use Rattle.object_programs.specs.gem_sound.declared.names.TheConstants.{ARRAY_CLASS};

use gem_object::Kind;

/// Sums, differences and products end at the greatest and the least integer of the language.
pub fn sums_in_range()
    ensures largest { Answers row_10 (int 1) (int (2 ^ 60 - 2) ∷ []) (int (2 ^ 60 - 1)) }
    ensures above { Refuses row_10 (int 1) (int (2 ^ 60 - 1) ∷ []) IntegerRange }
    ensures smallest { Answers row_11 (minus 1) (int (2 ^ 60 - 1) ∷ []) (minus (2 ^ 60)) }
    ensures below { Refuses row_11 (minus 2) (int (2 ^ 60 - 1) ∷ []) IntegerRange }
    ensures product { Answers row_12 (minus (2 ^ 30)) (int (2 ^ 30) ∷ []) (minus (2 ^ 60)) }
    ensures product_above { Refuses row_12 (int (2 ^ 30)) (int (2 ^ 30) ∷ []) IntegerRange }
    ensures kind { Refuses row_10 (int 1) (Nil ∷ []) ArgumentKind }
{}

/// `//` and `\\` round down, `quo:` and `rem:` toward 0; a division by 0 is E7, and the one
/// quotient that is no integer of the language is E6.
pub fn divisions_round()
    ensures quotient { Answers row_13 (minus 7) (int 2 ∷ []) (minus 4) }
    ensures remainder { Answers row_14 (minus 7) (int 2 ∷ []) (int 1) }
    ensures quotient_by_negative { Answers row_13 (int 7) (minus 2 ∷ []) (minus 4) }
    ensures remainder_by_negative { Answers row_14 (int 7) (minus 2 ∷ []) (minus 1) }
    ensures both_negative { Answers row_13 (minus 7) (minus 2 ∷ []) (int 3) }
    ensures toward_zero { Answers row_15 (minus 7) (int 2 ∷ []) (minus 3) }
    ensures with_its_sign { Answers row_16 (minus 7) (int 2 ∷ []) (minus 1) }
    ensures by_zero { Refuses row_14 (int 7) (int 0 ∷ []) ZeroDivisor }
    ensures too_large { Refuses row_13 (minus (2 ^ 60)) (minus 1 ∷ []) IntegerRange }
    ensures too_large_toward_zero { Refuses row_15 (minus (2 ^ 60)) (minus 1 ∷ []) IntegerRange }
    ensures nothing_left { Answers row_14 (minus (2 ^ 60)) (minus 1 ∷ []) (int 0) }
{}

/// Comparisons, and the bits of numbers in two's complement.
pub fn bits_of_numbers()
    ensures less { Answers row_17 (minus 2) (minus 1 ∷ []) True }
    ensures same { Answers row_20 (minus 2) (minus 2 ∷ []) True }
    ensures both { Answers row_21 (minus 4) (int 7 ∷ []) (int 4) }
    ensures both_negative { Answers row_21 (minus 4) (minus 6 ∷ []) (minus 8) }
    ensures any { Answers row_22 (minus 4) (int 1 ∷ []) (minus 3) }
    ensures other { Answers row_23 (minus 1) (int 5 ∷ []) (minus 6) }
{}

/// A shift by more bits than a number has ends in E6, or leaves 0 or -1.
pub fn shifts_at_their_ends()
    ensures left { Answers row_24 (int 1) (int 59 ∷ []) (int (2 ^ 59)) }
    ensures too_far { Refuses row_24 (int 1) (int 60 ∷ []) IntegerRange }
    ensures smallest { Answers row_24 (minus 1) (int 60 ∷ []) (minus (2 ^ 60)) }
    ensures below { Refuses row_24 (minus 1) (int 61 ∷ []) IntegerRange }
    ensures far { Refuses row_24 (int 1) (int (2 ^ 60 - 1) ∷ []) IntegerRange }
    ensures zero { Answers row_24 (int 0) (int (2 ^ 60 - 1) ∷ []) (int 0) }
    ensures right { Answers row_24 (minus 5) (minus 1 ∷ []) (minus 3) }
    ensures nothing_left { Answers row_24 (int (2 ^ 60 - 1)) (minus (2 ^ 60) ∷ []) (int 0) }
    ensures sign_left { Answers row_24 (minus 1) (minus (2 ^ 60) ∷ []) (minus 1) }
{}

/// Characters and integers, and integers to a base.
pub fn characters_and_digits()
    ensures character { Answers row_25 (int 127) [] (Char 127) }
    ensures no_character { Refuses row_25 (int 128) [] IntegerRange }
    ensures negative { Refuses row_25 (minus 1) [] IntegerRange }
    ensures code { Answers row_27 (Char 65) [] (int 65) }
    ensures capital { radix_text 36 (pos 1295) ≡ codes "ZZ" }
    ensures binary { radix_text 2 (pos 5) ≡ codes "101" }
    ensures minus { radix_text 16 (neg_ℤ (pos 255)) ≡ codes "-FF" }
    ensures zero { radix_text 2 (pos 0) ≡ codes "0" }
    ensures no_base { Refuses row_26 (int 5) (int 37 ∷ []) IntegerRange }
    ensures unary { Refuses row_26 (int 5) (int 1 ∷ []) IntegerRange }
{}

/// Numbers in texts.
pub fn numbers_are_read()
    ensures negative { integer_in (codes "-12") ≡ Some (neg_ℤ (pos 12)) }
    ensures zero { integer_in (codes "-0") ≡ Some (pos 0) }
    ensures empty { integer_in (codes "") ≡ None }
    ensures sign_alone { integer_in (codes "-") ≡ None }
    ensures letter { integer_in (codes "1a") ≡ None }
    ensures plus { integer_in (codes "+1") ≡ None }
    ensures digits { integer_in (codes "007") ≡ Some (pos 7) }
    ensures largest { integer_in (codes "1152921504606846975") ≡ Some (pos (2 ^ 60 - 1)) }
    ensures above { integer_in (codes "1152921504606846976") ≡ None }
    ensures smallest { integer_in (codes "-1152921504606846976") ≡ Some (neg_ℤ (pos (2 ^ 60))) }
    ensures below { integer_in (codes "-1152921504606846977") ≡ None }
{}

/// Blocks are evaluated with as many arguments as they have parameters.
pub fn blocks_count_arguments()
    ensures evaluates { AlwaysEnds (row_29 (Block (record { number = 4; params = 1 })) (int 7 ∷ []))
        (gives (Evaluates (record { number = 4; params = 1 }) (int 7 ∷ []))) }
    ensures too_few { Refuses row_29 (Block (record { number = 4; params = 2 })) (int 7 ∷ [])
        BlockArgumentCount }
    ensures none { Refuses row_28 (Block (record { number = 4; params = 1 })) []
        BlockArgumentCount }
    ensures parameters { Answers row_32 (Block (record { number = 4; params = 2 })) [] (int 2) }
{}

/// Values are the same by kind and content; a block is E5.
pub fn values_are_the_same()
    ensures symbols { Answers row_1 (Sym (codes "sum")) (Sym (codes "sum") ∷ []) True }
    ensures kinds { Answers row_1 (Char 7) (int 7 ∷ []) False }
    ensures block { Refuses row_1 Nil (Block (record { number = 0; params = 0 }) ∷ [])
        ArgumentKind }
    ensures copied { Answers row_7 (int 7) [] (int 7) }
    ensures not_copied { Refuses row_7 (Block (record { number = 0; params = 0 })) []
        ArgumentKind }
    ensures nowhere { Answers row_8 True [] Nil }
{}

/// Print texts of values.
pub fn values_are_printed()
    ensures negative { Prints (minus 5) (codes "-5") }
    ensures character { Prints (Char 97) (codes "$a") }
    ensures nothing { Prints Nil (codes "nil") }
    ensures block { Prints (Block (record { number = 0; params = 0 })) (codes "a Block") }
    ensures selector { Prints (Sym (codes "foo:bar:")) (codes "#foo:bar:") }
    ensures word { Prints (Sym (codes "at_1")) (codes "#at_1") }
    ensures binary { Prints (Sym (codes "<=")) (codes "#<=") }
    ensures two_minus { Prints (Sym (codes "--")) (codes "#'--'") }
    ensures gap { Prints (Sym (codes "a b")) (codes "#'a b'") }
    ensures half { Prints (Sym (codes "foo:bar")) (codes "#'foo:bar'") }
    ensures empty { Prints (Sym (codes "")) (codes "#''") }
    ensures paren { Prints (Sym (codes "(")) (codes "#'('") }
    ensures digit { Prints (Sym (codes "1a")) (codes "#'1a'") }
    ensures quote { Prints (Sym (codes "it's")) (codes "#'it''s'") }
    ensures quoted_name { Prints (Sym (codes "'abc'")) (codes "#'abc'") }
{}

/// Print texts of Strings and of instances.
pub fn texts_are_printed()
    ensures quote { quoted (codes "it's") ≡ codes "'it''s'" }
    ensures empty { quoted (codes "") ≡ codes "''" }
    ensures vowel { with_article (codes "Array") ≡ codes "an Array" }
    ensures consonant { with_article (codes "Set") ≡ codes "a Set" }
{}

/// Indexes count from 1, and a part may be empty at either end.
pub fn parts_have_bounds()
    ensures first { place_in 3 (pos 1) ≡ Some 0 }
    ensures zero { place_in 3 (pos 0) ≡ None }
    ensures past { place_in 3 (pos 4) ≡ None }
    ensures part { part_of (codes "abcd") (pos 2) (pos 3) ≡ Some (codes "bc") }
    ensures whole { part_of (codes "abcd") (pos 1) (pos 4) ≡ Some (codes "abcd") }
    ensures empty_first { part_of (codes "abcd") (pos 1) (pos 0) ≡ Some [] }
    ensures empty_last { part_of (codes "abcd") (pos 5) (pos 4) ≡ Some [] }
    ensures turned { part_of (codes "abcd") (pos 3) (pos 1) ≡ None }
    ensures before { part_of (codes "abcd") (pos 0) (pos 1) ≡ None }
    ensures behind { part_of (codes "abcd") (pos 1) (pos 5) ≡ None }
{}

/// Symbols as texts.
pub fn symbols_are_texts()
    ensures size { Answers row_42 (Sym (codes "abc")) [] (int 3) }
    ensures character { Answers row_43 (Sym (codes "abc")) (int 3 ∷ []) (Char 99) }
    ensures past { Refuses row_43 (Sym (codes "abc")) (int 4 ∷ []) Index }
    ensures same { Answers row_49 (Sym (codes "abc")) (Sym (codes "abc") ∷ []) True }
    ensures other { Answers row_49 (Sym (codes "abc")) (int 3 ∷ []) False }
    ensures before { Answers row_50 (Sym (codes "B")) (Sym (codes "a") ∷ []) True }
    ensures prefix { Answers row_50 (Sym (codes "ab")) (Sym (codes "a") ∷ []) False }
{}

/// An Array or an OrderedCollection whose class names one slot: its elements stand behind that
/// slot.
pub fn elements_follow_named_slots()
    ensures size { (name segment class : ℕ) (setting : Setting) (state : State NoBlocks)
        → HasPair a_read name segment class setting state.world
        → ends row_33 (Ref name) [] setting state ≡ gives (Gives (int 2)) }
    ensures at { (name segment class : ℕ) (setting : Setting) (state : State NoBlocks)
        → HasPair a_read name segment class setting state.world
        → ends row_34 (Ref name) (int 2 ∷ []) setting state ≡ gives (Gives False) }
    ensures past { (name segment class : ℕ) (setting : Setting) (state : State NoBlocks)
        → HasPair a_read name segment class setting state.world
        → ends row_34 (Ref name) (int 3 ∷ []) setting state ≡ fails Index }
    ensures copied { (name segment class : ℕ) (setting : Setting) (state : State NoBlocks)
        → HasPair a_read name segment class setting state.world
        → perform (row_40 (Ref name) (int 2 ∷ int 2 ∷ [])) setting state
        ≡ perform (answers (new_object class (Plain (Nil ∷ False ∷ [])))) setting
        (after a_read name setting state) }
    ensures copied_past { (name segment class : ℕ) (setting : Setting) (state : State NoBlocks)
        → HasPair a_read name segment class setting state.world
        → ends row_40 (Ref name) (int 2 ∷ int 3 ∷ []) setting state ≡ fails Index }
    ensures put_past { (name segment class : ℕ) (setting : Setting) (state : State NoBlocks)
        → HasPair a_write name segment class setting state.world
        → perform (row_35 (Ref name) (int 3 ∷ Nil ∷ [])) setting state
        ≡ record {
          end = fails Index;
          state = record state {
            world = accessed a_write name setting state.world;
          };
        } }
    ensures put_block { (name segment class : ℕ) (setting : Setting) (state : State NoBlocks)
        → HasPair a_write name segment class setting state.world
        → ends row_35 (Ref name) (int 3 ∷ Block (record { number = 0; params = 0 }) ∷ [])
        setting state ≡ fails BlockStored }
    ensures put_nowhere { (name segment class : ℕ) (setting : Setting) (state : State NoBlocks)
        → HasPair a_write name segment class setting state.world
        → ends row_35 (Ref name) (Nil ∷ Block (record { number = 0; params = 0 }) ∷ [])
        setting state ≡ fails ArgumentKind }
    ensures first { (name segment class : ℕ) (setting : Setting) (state : State NoBlocks)
        → HasPair a_write name segment class setting state.world
        → perform (row_38 (Ref name) []) setting state
        ≡ record {
          end = gives (Gives True);
          state = record state {
            world = edited name (with_body (Plain (Nil ∷ False ∷ []))) setting
                (accessed a_write name setting state.world);
          };
        } }
    ensures last { (name segment class : ℕ) (setting : Setting) (state : State NoBlocks)
        → HasPair a_write name segment class setting state.world
        → perform (row_39 (Ref name) []) setting state
        ≡ record {
          end = gives (Gives False);
          state = record state {
            world = edited name (with_body (Plain (Nil ∷ True ∷ []))) setting
                (accessed a_write name setting state.world);
          };
        } }
    ensures put { (name segment class : ℕ) (setting : Setting) (state : State NoBlocks)
        → HasPair a_write name segment class setting state.world
        → perform (row_35 (Ref name) (int 1 ∷ Char 97 ∷ [])) setting state
        ≡ record {
          end = gives (Gives (Char 97));
          state = record state {
            world = edited name (with_body (Plain (Nil ∷ Char 97 ∷ False ∷ []))) setting
                (accessed a_write name setting state.world);
          };
        } }
{}

/// Strings and Arrays that the user may read.
pub fn objects_are_read()
    ensures number { (name segment : ℕ) (setting : Setting) (state : State NoBlocks)
        → MayAccess a_read name (string_in segment (codes "-12")) setting state.world
        → ends row_51 (Ref name) [] setting state ≡ gives (Gives (minus 12)) }
    ensures no_number { (name segment : ℕ) (setting : Setting) (state : State NoBlocks)
        → MayAccess a_read name (string_in segment (codes "12 ")) setting state.world
        → ends row_51 (Ref name) [] setting state ≡ gives (Gives Nil) }
    ensures symbol { (name segment : ℕ) (setting : Setting) (state : State NoBlocks)
        → MayAccess a_read name (string_in segment (codes "sum")) setting state.world
        → ends row_49 (Ref name) (Sym (codes "sum") ∷ []) setting state ≡ gives (Gives False) }
    ensures text { (name segment : ℕ) (setting : Setting) (state : State NoBlocks)
        → MayAccess a_read name (string_in segment (codes "it's")) setting state.world
        → prints (Ref name) setting state ≡ gives (codes "'it''s'") }
    ensures array { (name segment : ℕ) (setting : Setting) (state : State NoBlocks)
        → MayAccess a_read name
        (array_in segment (minus 1 ∷ Char 97 ∷ Sym (codes "at:") ∷ Nil ∷ [])) setting state.world
        → prints (Ref name) setting state ≡ gives (codes "#(-1 $a #at: nil)") }
    ensures nested { (name inner segment : ℕ) (setting : Setting) (state : State NoBlocks)
        → MayAccess a_read name (array_in segment (Ref inner ∷ [])) setting state.world
        → MayAccess a_read inner (array_in segment []) setting
        (after a_read name setting state).world
        → MayAccess a_read ARRAY_CLASS (class_called segment (codes "Array")) setting
        (after a_read inner setting (after a_read name setting state)).world
        → perform (print_text (Ref name)) setting state ≡ record {
          end = gives (codes "#(an Array)");
          state = after a_read ARRAY_CLASS setting
              (after a_read inner setting (after a_read name setting state));
        } }
    ensures empty { (name segment : ℕ) (setting : Setting) (state : State NoBlocks)
        → MayAccess a_read name (array_in segment []) setting state.world
        → prints (Ref name) setting state ≡ gives (codes "#()") }
    ensures unreadable { (name : ℕ) (setting : Setting) (state : State NoBlocks)
        → is_allowed a_read name setting state.world ≡ false
        → prints (Ref name) setting state ≡ fails (NoReadRight name) }
{}

/// A print text that is too long is E17 after all its accesses, and `printString` reads the profile
/// before.
pub fn print_limit_comes_last()
    ensures long { (value : Value) (text : Text) (setting : Setting) (state last : State NoBlocks)
        → perform (whole_text value) setting state ≡ record { end = gives text; state = last }
        → is_short text ≡ false
        → perform (print_text value) setting state
        ≡ record { end = fails ObjectTooLarge; state = last } }
    ensures profile { (value : Value) (text : Text) (setting : Setting)
        (state last : State NoBlocks)
        → perform (whole_text value) setting state ≡ record { end = gives text; state = last }
        → is_allowed a_read setting.user setting last.world ≡ false
        → perform (print_string_rule value) setting state ≡ record {
          end = fails (NoReadRight setting.user);
          state = after a_read setting.user setting last;
        } }
{}

/// The bodies of new objects, by the kinds of their classes.
pub fn new_objects_are_empty()
    ensures plain { option_map (λ body_of. body_of 2) (new_body Kind.Plain)
        ≡ Some (Plain (Nil ∷ Nil ∷ [])) }
    ensures indexed { option_map (λ body_of. body_of 1) (new_body Kind.Indexed)
        ≡ Some (Plain (Nil ∷ [])) }
    ensures none { is_some (new_body Kind.None) ≡ false }
    ensures user { is_some (new_body Kind.User) ≡ false }
    ensures elements { option_map (λ body_of. body_of 1 2) (sized_body Kind.Indexed)
        ≡ Some (Plain (Nil ∷ Nil ∷ Nil ∷ [])) }
    ensures bytes { option_map (λ body_of. body_of 0 2) (sized_body Kind.Bytes)
        ≡ Some (Bytes (0 ∷ 0 ∷ [])) }
    ensures not_sized { is_some (sized_body Kind.Plain) ≡ false }
{}

/// A class that the user may read: whether it has new instances is asked before their number.
pub fn classes_have_instances()
    ensures none { (name segment : ℕ) (setting : Setting) (state : State NoBlocks)
        → MayAccess a_read name (class_in segment Kind.None) setting state.world
        → ends row_52 (Ref name) [] setting state ≡ fails ArgumentKind }
    ensures not_sized { (name segment : ℕ) (setting : Setting) (state : State NoBlocks)
        → MayAccess a_read name (class_in segment Kind.Plain) setting state.world
        → ends row_53 (Ref name) (minus 1 ∷ []) setting state ≡ fails ArgumentKind }
    ensures no_count { (name segment : ℕ) (setting : Setting) (state : State NoBlocks)
        → MayAccess a_read name (class_in segment Kind.Bytes) setting state.world
        → ends row_53 (Ref name) (Nil ∷ []) setting state ≡ fails ArgumentKind }
    ensures negative { (name segment : ℕ) (setting : Setting) (state : State NoBlocks)
        → MayAccess a_read name (class_in segment Kind.Bytes) setting state.world
        → ends row_53 (Ref name) (minus 1 ∷ []) setting state ≡ fails Index }
{}

/// A new object is refused where the user's profile can't be read, however large it is; a new
/// segment lies in itself, and the profile isn't read.
pub fn profiles_are_read_for_new_objects()
    ensures refused { (class : ℕ) (body : Body) (setting : Setting) (state : State NoBlocks)
        → is_allowed a_read setting.user setting state.world ≡ false
        → (perform (new_object class body) setting state).end
        ≡ fails (NoReadRight setting.user) }
    ensures segment { (class : ℕ) (setting : Setting) (state : State NoBlocks)
        → perform (new_segment class) setting state ≡ perform (and_then
        (make_object (λ name. record {
          class = class;
          segment = name;
          body = Segment (own_rights setting.user);
        }))
        (λ name. give (Ref name))) setting state }
{}

/// `isKindOf:` reads each class up to the last one, wherever it finds the one that is asked for.
pub fn classes_are_read_up()
    ensures last { (more ancestor name segment : ℕ) (found : Bool) (setting : Setting)
        (state : State NoBlocks)
        → MayAccess a_read name (class_in segment Kind.None) setting state.world
        → perform (reads_up (suc more) ancestor found name) setting state
        ≡ record {
          end = gives (found || nat_eq name ancestor);
          state = record state {
            world = accessed a_read name setting state.world;
          };
        } }
    ensures next { (more ancestor name segment superclass : ℕ) (found : Bool) (setting : Setting)
        (state : State NoBlocks)
        → MayAccess a_read name (class_under superclass segment) setting state.world
        → perform (reads_up (suc more) ancestor found name) setting state
        ≡ perform (reads_up more ancestor (found || nat_eq name ancestor) superclass) setting
        (record state { world = accessed a_read name setting state.world }) }
{}

/// Which objects `assignToSegment:` moves, and which segments it takes.
pub fn segments_take_objects()
    ensures plain { is_moved (Plain []) false ≡ true }
    ensures counter { is_moved (Counter (record { value = pos 0 })) false ≡ false }
    ensures new_counter { is_moved (Counter (record { value = pos 0 })) true ≡ true }
    ensures segment { is_moved (Segment (own_rights 31)) true ≡ false }
    ensures owner { gives_write (own_rights 31) 31 (Some (profile_in 30)) ≡ true }
    ensures others { gives_write (own_rights 31) 32 (Some (profile_in 30)) ≡ false }
    ensures nobody { gives_write (own_rights 31) 31 None ≡ false }
    ensures taken { (name : ℕ) (rights : Rights Text) (setting : Setting) (state : State NoBlocks)
        → MayAccess a_read name (segment_of name rights) setting state.world
        → gives_write rights setting.user (shown setting.user setting state.world) ≡ true
        → (perform (check_segment name) setting state).end ≡ gives tt }
    ensures refused { (name : ℕ) (rights : Rights Text) (setting : Setting)
        (state : State NoBlocks)
        → MayAccess a_read name (segment_of name rights) setting state.world
        → gives_write rights setting.user (shown setting.user setting state.world) ≡ false
        → (perform (check_segment name) setting state).end ≡ fails (NoWriteRight name) }
{}

/// The rules stand in the order of the table of primitives, with each of its numbers up to 53.
pub fn rules_by_number()
    ensures { map (λ entry. entry.0) (first_rules {B = NoBlocks})
        ≡ take 53 (map (λ primitive. primitive.number) primitives) }
{}

/// The quotient that is rounded down and its remainder make the number, and the remainder is below
/// the divisor and has its sign.
pub fn remainders_have_the_divisors_sign()
    ensures whole { (number divisor : ℤ) →
        floor_quotient number divisor *ℤ divisor +ℤ floor_remainder number divisor ≡ number }
    ensures positive { (number : ℤ) (before : ℕ) →
        (pos 0 ≤ℤ floor_remainder number (pos (suc before)))
        × (floor_remainder number (pos (suc before)) <ℤ pos (suc before)) }
    ensures negative { (number : ℤ) (before : ℕ) →
        (negsuc before <ℤ floor_remainder number (negsuc before))
        × (floor_remainder number (negsuc before) ≤ℤ pos 0) }
{}

/// Each bit of the three results is that of both numbers, of at least one, and of just one.
pub fn bits_at_each_place()
    ensures both { (number other : ℤ) (place : ℕ) → bit_of (bits_and number other) place
        ≡ min (bit_of number place) (bit_of other place) }
    ensures any { (number other : ℤ) (place : ℕ) → bit_of (bits_or number other) place
        ≡ max (bit_of number place) (bit_of other place) }
    ensures just_one { (number other : ℤ) (place : ℕ) → bit_of (bits_xor number other) place
        ≡ (bit_of number place + bit_of other place) % 2 }
{}

/// A shift to the left multiplies by a power of two, however large the count, and one to the right
/// divides by one and rounds down.
pub fn shifts_are_products_and_quotients()
    ensures in_range { (number : ℤ) (count : ℕ) → is_small_integer (shifted number (pos count))
        ≡ is_small_integer (number *ℤ pos (2 ^ count)) }
    ensures product { (number : ℤ) (count : ℕ)
        → is_small_integer (number *ℤ pos (2 ^ count)) ≡ true
        → shifted number (pos count) ≡ number *ℤ pos (2 ^ count) }
    ensures quotient { (number : ℤ) (before : ℕ) → is_small_integer number ≡ true
        → shifted number (negsuc before) ≡ int_shr number (suc before) }
{}
