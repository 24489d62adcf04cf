//! What follows from the rules of the primitives from 54 on. Each law is the contract of a function
//! that does nothing.
ghost use Rattle.std.specs.Prelude.{◌≡◌, ℕ, ℤ, pos, ◌+ℤ◌, ◌+◌, ◌-◌, nat_le, true, false, codes, replicate, map, length, List, [], ◌∷◌, ◌++◌, Some, None};
ghost use Rattle.gem_object.specs.texts.Bytes.{Bytes as Text};
ghost use Rattle.std.specs.List.{list_all};
ghost use Rattle.gem_object.specs.texts.Names.{is_user_name};
ghost use Rattle.gem_object.specs.texts.SmallInteger.{is_small_integer};
ghost use Rattle.gem_object.specs.seg_rights.declared.right.Right.{Right};
ghost use Rattle.gem_object.specs.seg_rights.declared.right.Right.TheVariants.{Read, Write};
ghost use Rattle.gem_object.specs.seg_rights.declared.rights.Rights.{Rights};
ghost use Rattle.gem_object.specs.rc_counter_bag.Bag.{with_one_less};
ghost use Rattle.gem_object.specs.rc_dict.Dict.{entry};
ghost use Rattle.gem_object.specs.Order.{value_order};
ghost use Rattle.gem_object.specs.Slots.{slots_of};
ghost use Rattle.gem_object.specs.Sizes.{fields_size};
ghost use Rattle.gem_object.specs.Spelling.{Ascend, is_key};
ghost use Rattle.gem_object.specs.Edits.{value_at, with_value_at};
ghost use Rattle.gem_object.specs.declared.kind.Kind.TheVariants as kind;
ghost use Rattle.gem_object.specs.declared.value.Value.{Value};
ghost use Rattle.gem_object.specs.declared.value.Value.TheVariants.{Nil, True, Int, Sym, Ref, Block};
ghost use Rattle.gem_object.specs.declared.value.BlockRef.{BlockRef};
ghost use Rattle.gem_object.specs.declared.body.UserBody.{UserBody};
ghost use Rattle.gem_object.specs.declared.body.Body.TheVariants as body;
ghost use Rattle.object_programs.specs.gem_update.declared.update.Update.TheVariants as change;
ghost use Rattle.object_programs.specs.gem_world.World.{Setting, name_of};
ghost use Rattle.object_programs.specs.gem_world.Changes.{with_body};
ghost use Rattle.object_programs.specs.gem_world.Access.{a_read, a_write, accessed};
ghost use Rattle.object_programs.specs.Spelled.{is_nil};
ghost use Rattle.object_programs.specs.Atom.{objects_cost, edited, after_update};
ghost use Rattle.object_programs.specs.Budget.{is_within_limits, may_write};
ghost use Rattle.object_programs.specs.Guard.{with_parts, fits};
ghost use Rattle.object_programs.specs.Run.{State, gives, fails, perform};
ghost use Rattle.object_programs.specs.declared.limits.TheConstants.{COUNTER_LIMIT};
ghost use Rattle.object_programs.specs.declared.fault.Fault.TheVariants as fault;
ghost use Rattle.prim_rules.specs.Parts.{is_block};
ghost use Rattle.prim_rules.specs.Admitted.{Admits, an_object, first_name, kernel_parts, fit_beside_kernel};
ghost use Rattle.prim_rules.specs.Receivers.{Receiver};
ghost use Rattle.prim_rules.specs.Making.{Entered, sized_objects, sized_dictionary, make_and_enter};
ghost use Rattle.prim_rules.specs.Classes.{class_name_in, may_add_names, new_class, class_object, row_54};
ghost use Rattle.prim_rules.specs.Dictionaries.{pair_growth, row_61, row_62};
ghost use Rattle.prim_rules.specs.Groups.{are_few_groups, with_group, without_group, with_right};
ghost use Rattle.prim_rules.specs.Segments.{right_in, right_symbol, with_group_right, row_71};
ghost use Rattle.prim_rules.specs.Users.{user_name_in, user_objects, row_76, row_79};
ghost use Rattle.prim_rules.specs.Transcript.{row_82};
ghost use Rattle.prim_rules.specs.Counters.{row_83, row_84};
ghost use Rattle.prim_rules.specs.Bags.{items_of, row_86};
ghost use Rattle.prim_rules.specs.RcDicts.{row_89, row_91};
ghost use Rattle.prim_rules.specs.Queues.{row_95};
ghost use Rattle.prim_rules.specs.LaterRules.{later_rule};
ghost use Rattle.prim_rules.specs.declared.answer.PrimitiveAnswer.TheVariants.{Gives};
ghost use Rattle.object_programs.specs.gem_sound.declared.names.TheConstants.{ALL_USERS, DATA_CURATOR_SEGMENT, SEGMENT_CLASS, SYMBOL_DICTIONARY_CLASS, USER_PROFILE_CLASS};

/// Which names a class may have, and which names of instance variables it may add.
pub fn names_of_new_classes()
    ensures class { class_name_in (Sym (codes "Point_3")) ≡ Some (codes "Point_3") }
    ensures small { class_name_in (Sym (codes "point")) ≡ None }
    ensures other_bytes { class_name_in (Sym (codes "A-b")) ≡ None }
    ensures no_symbol { class_name_in Nil ≡ None }
    ensures added { may_add_names kind.Plain (codes "x" ∷ []) (codes "y" ∷ codes "Z" ∷ []) ≡ true }
    ensures repeated { may_add_names kind.Plain [] (codes "y" ∷ codes "x" ∷ codes "y" ∷ [])
        ≡ false }
    ensures inherited { may_add_names kind.Plain (codes "x" ∷ []) (codes "y" ∷ codes "x" ∷ [])
        ≡ false }
    ensures no_identifier { may_add_names kind.Plain [] (codes "at:" ∷ []) ≡ false }
    ensures without_names { may_add_names kind.Dict [] [] ≡ true }
    ensures without_slots { may_add_names kind.Dict [] (codes "x" ∷ []) ≡ false }
    ensures most { may_add_names kind.Indexed (replicate 199 (codes "x")) (codes "y" ∷ []) ≡ true }
    ensures too_many { may_add_names kind.Indexed (replicate 200 (codes "x")) (codes "y" ∷ [])
        ≡ false }
{}

/// A new class whose name can't be one is E5, and nothing is asked then.
pub fn refused_classes()
    ensures { (superclass : ℕ) (name names dictionary : Value) (setting : Setting)
        (state : State (Unit {0})) → class_name_in name ≡ None
        → perform (row_54 (Ref superclass) (name ∷ names ∷ dictionary ∷ [])) setting state
        ≡ record { end = fails fault.ArgumentKind; state = state } }
{}

/// A dictionary keeps the order of its keys: a value that is replaced keeps its place, and a new
/// key comes last. What a key may be, and E18 where it isn't there.
pub fn keys_of_dictionaries()
    ensures replaced { with_value_at (Sym (codes "a")) (Int (pos 3))
        (body.Dict ((Sym (codes "a"), Nil) ∷ (Int (pos 1), True) ∷ []))
        ≡ body.Dict ((Sym (codes "a"), Int (pos 3)) ∷ (Int (pos 1), True) ∷ []) }
    ensures last { with_value_at (Sym (codes "a")) (Int (pos 3)) (body.Dict ((True, Nil) ∷ []))
        ≡ body.Dict ((True, Nil) ∷ (Sym (codes "a"), Int (pos 3)) ∷ []) }
    ensures absent { (name class segment : ℕ) (key : Value) (pairs : List (Value × Value))
        (setting : Setting) (state : State (Unit {0}))
        → Admits a_read name (an_object class segment (body.Dict pairs)) setting state
        → is_nil key ≡ false → is_block key ≡ false → value_at key (body.Dict pairs) ≡ None
        → (perform (row_61 (Ref name) (key ∷ [])) setting state).end ≡ fails fault.KeyAbsent }
    ensures nil { (name class segment : ℕ) (value : Value) (pairs : List (Value × Value))
        (setting : Setting) (state : State (Unit {0}))
        → Admits a_write name (an_object class segment (body.Dict pairs)) setting state
        → (perform (row_62 (Ref name) (Nil ∷ value ∷ [])) setting state).end
        ≡ fails fault.ArgumentKind }
    ensures block { (name class segment : ℕ) (block : BlockRef) (value : Value)
        (pairs : List (Value × Value)) (setting : Setting) (state : State (Unit {0}))
        → Admits a_write name (an_object class segment (body.Dict pairs)) setting state
        → (perform (row_62 (Ref name) (Block block ∷ value ∷ [])) setting state).end
        ≡ fails fault.BlockStored }
{}

/// Where there is space, a put leaves the dictionary with the value at the key, and answers it.
pub fn puts_leave_the_value()
    ensures { (name class segment : ℕ) (key value : Value) (pairs : List (Value × Value))
        (setting : Setting) (state : State (Unit {0}))
        → Admits a_write name (an_object class segment (body.Dict pairs)) setting state
        → is_nil key ≡ false → is_block key ≡ false → is_block value ≡ false
        → is_within_limits (an_object class segment (with_value_at key value (body.Dict pairs)))
        ≡ true → nat_le (pair_growth key (body.Dict pairs)) state.budget.slots ≡ true
        → perform (row_62 (Ref name) (key ∷ value ∷ [])) setting state ≡ record {
          end = gives (Gives value);
          state = record state {
            world = edited name (with_body (with_value_at key value (body.Dict pairs))) setting
                (accessed a_write name setting state.world);
            budget = record {
              units = state.budget.units;
              slots = state.budget.slots - pair_growth key (body.Dict pairs);
              text = state.budget.text;
            };
          };
        } }
{}

/// The words for rights stand for them, and no other word does.
pub fn words_for_rights()
    ensures each { (right : Right) → right_in (right_symbol right) ≡ Some right }
    ensures read { right_in (Sym (codes "read")) ≡ Some Read }
    ensures other { right_in (Sym (codes "Write")) ≡ None }
    ensures no_symbol { right_in Nil ≡ None }
{}

/// Groups stand in the order of their bytes, each once, in segments and in users alike.
pub fn groups_in_their_order()
    ensures added { with_group (codes "b") (codes "B" ∷ codes "a" ∷ codes "ba" ∷ [])
        ≡ codes "B" ∷ codes "a" ∷ codes "b" ∷ codes "ba" ∷ [] }
    ensures there { with_group (codes "a") (codes "a" ∷ codes "b" ∷ [])
        ≡ codes "a" ∷ codes "b" ∷ [] }
    ensures removed { without_group (codes "a") (codes "a" ∷ codes "b" ∷ []) ≡ codes "b" ∷ [] }
    ensures given { with_right (codes "b") Write ((codes "a", Read) ∷ (codes "c", Read) ∷ [])
        ≡ (codes "a", Read) ∷ (codes "b", Write) ∷ (codes "c", Read) ∷ [] }
    ensures changed { with_right (codes "a") Write ((codes "a", Read) ∷ (codes "c", Read) ∷ [])
        ≡ (codes "a", Write) ∷ (codes "c", Read) ∷ [] }
    ensures taken { with_right (codes "a") Right.None ((codes "a", Read) ∷ (codes "c", Read) ∷ [])
        ≡ (codes "c", Read) ∷ [] }
{}

/// With a group more or less the groups of a user ascend as before, and so do those of a segment
/// with another right for a group, each of which has a right.
pub fn groups_ascend()
    ensures user { (group : Text) (groups : List Text) → Ascend groups
        → Ascend (with_group group groups) }
    ensures left { (group : Text) (groups : List Text) → Ascend groups
        → Ascend (without_group group groups) }
    ensures segment { (group : Text) (right : Right) (groups : List (Text × Right))
        → Ascend (map (λ grant. grant.0) groups)
        → Ascend (map (λ grant. grant.0) (with_right group right groups)) }
{}

/// Which names a new user may have, and what its three objects take in space.
pub fn new_users()
    ensures short { user_name_in (Sym (codes "a")) ≡ Some (codes "a") }
    ensures long { user_name_in (Sym (replicate 64 97)) ≡ Some (replicate 64 97) }
    ensures too_long { user_name_in (Sym (replicate 65 97)) ≡ None }
    ensures empty { user_name_in (Sym []) ≡ None }
    ensures digit { user_name_in (Sym (codes "1a")) ≡ None }
    ensures underscore { user_name_in (Sym (codes "a_b")) ≡ None }
    ensures space { (name : Text) (first : ℕ) → objects_cost (user_objects name first) ≡ 5 }
{}

/// A name that can't be one of a user is E5, and nothing is asked then. One that a user has is E5
/// after the dictionary of all users was written.
pub fn refused_users()
    ensures no_name { (class : ℕ) (name : Value) (setting : Setting) (state : State (Unit {0}))
        → user_name_in name ≡ None
        → perform (row_79 (Ref class) (name ∷ [])) setting state
        ≡ record { end = fails fault.ArgumentKind; state = state } }
    ensures taken { (class own segment : ℕ) (name : Text) (user : Value)
        (pairs : List (Value × Value)) (setting : Setting) (state : State (Unit {0}))
        → is_user_name name ≡ true
        → Admits a_write ALL_USERS (an_object own segment (body.Dict pairs)) setting state
        → value_at (Sym name) (body.Dict pairs) ≡ Some user
        → perform (row_79 (Ref class) (Sym name ∷ [])) setting state ≡ record {
          end = fails fault.ArgumentKind;
          state = record state { world = accessed a_write ALL_USERS setting state.world };
        } }
{}

/// A user in 100 groups, or a segment with as many, takes no further one.
pub fn groups_are_few()
    ensures user { (name class segment : ℕ) (group : Text) (user : UserBody) (setting : Setting)
        (state : State (Unit {0}))
        → Admits a_write name (an_object class segment (body.User user)) setting state
        → are_few_groups (with_group group user.groups) ≡ false
        → (perform (row_76 (Ref name) (Sym group ∷ [])) setting state).end
        ≡ fails fault.ObjectTooLarge }
    ensures segment { (name class segment : ℕ) (group : Text) (right : Right)
        (rights : Rights Text) (setting : Setting) (state : State (Unit {0}))
        → Admits a_write name (an_object class segment (body.Segment rights)) setting state
        → are_few_groups (with_right group right rights.groups) ≡ false
        → (perform (row_71 (Ref name) (Sym group ∷ right_symbol right ∷ [])) setting state).end
        ≡ fails fault.ObjectTooLarge }
    ensures limit { are_few_groups (replicate 100 Nil) ≡ true }
    ensures past { are_few_groups (replicate 101 Nil) ≡ false }
{}

/// A new line comes on the transcript where there is space for it, and takes one slot.
pub fn lines_end()
    ensures { (name class segment : ℕ) (slots : List Value) (setting : Setting)
        (state : State (Unit {0}))
        → Admits a_read name (an_object class segment (body.Plain slots)) setting state
        → may_write (10 ∷ []) state.budget ≡ true → nat_le 1 state.budget.slots ≡ true
        → perform (row_82 (Ref name) []) setting state ≡ record {
          end = gives (Gives (Ref name));
          state = record state {
            world = accessed a_read name setting state.world;
            budget = record {
              units = state.budget.units;
              slots = state.budget.slots - 1;
              text = state.budget.text ++ 10 ∷ [];
            };
          };
        } }
{}

/// The sizes by which objects and dictionaries are judged before a name is drawn don't depend on
/// the name.
pub fn sizes_without_names()
    ensures slots { (key : Value) (name other : ℕ) (pairs : List (Value × Value))
        → slots_of (with_value_at key (Ref name) (body.Dict pairs))
        ≡ slots_of (with_value_at key (Ref other) (body.Dict pairs)) }
    ensures bytes { (key : Value) (name other : ℕ) (pairs : List (Value × Value))
        → fields_size (with_value_at key (Ref name) (body.Dict pairs))
        ≡ fields_size (with_value_at key (Ref other) (body.Dict pairs)) }
    ensures users { (name : Text) (first other : ℕ)
        → map is_within_limits (user_objects name first)
        ≡ map is_within_limits (user_objects name other) }
{}

/// Before objects are made that go into a dictionary, their sizes and then the dictionary's are
/// asked for (E17), then the names (E16), then the space of the pair and of the objects (E15). A
/// refusal draws no name and changes no object.
pub fn enters_in_order()
    ensures large { (entered : Entered) (dictionary : Receiver (List (Value × Value)))
        (setting : Setting) (state : State (Unit {0}))
        → list_all is_within_limits (sized_objects entered) ≡ true
        → is_within_limits (sized_dictionary entered dictionary) ≡ false
        → perform (make_and_enter entered dictionary) setting state
        ≡ record { end = fails fault.ObjectTooLarge; state = state } }
    ensures used_up { (entered : Entered) (dictionary : Receiver (List (Value × Value)))
        (setting : Setting) (state : State (Unit {0}))
        → list_all is_within_limits (sized_objects entered) ≡ true
        → is_within_limits (sized_dictionary entered dictionary) ≡ true
        → nat_le (state.world.next + length (sized_objects entered)) COUNTER_LIMIT ≡ false
        → perform (make_and_enter entered dictionary) setting state
        ≡ record { end = fails fault.NamesUsedUp; state = state } }
    ensures too_little { (entered : Entered) (dictionary : Receiver (List (Value × Value)))
        (setting : Setting) (state : State (Unit {0}))
        → list_all is_within_limits (sized_objects entered) ≡ true
        → is_within_limits (sized_dictionary entered dictionary) ≡ true
        → nat_le (state.world.next + length (sized_objects entered)) COUNTER_LIMIT ≡ true
        → nat_le (pair_growth entered.key dictionary.object.body) state.budget.slots ≡ false
        → perform (make_and_enter entered dictionary) setting state
        ≡ record { end = fails fault.Space; state = state } }
    ensures no_space { (entered : Entered) (dictionary : Receiver (List (Value × Value)))
        (setting : Setting) (state : State (Unit {0}))
        → let objects = entered.objects_at (name_of setting state.world.next) in
        let growth = pair_growth entered.key dictionary.object.body in
        list_all is_within_limits (sized_objects entered) ≡ true
        → is_within_limits (sized_dictionary entered dictionary) ≡ true
        → nat_le (state.world.next + length (sized_objects entered)) COUNTER_LIMIT ≡ true
        → list_all is_within_limits objects ≡ true
        → nat_le (state.world.next + length objects) COUNTER_LIMIT ≡ true
        → nat_le growth state.budget.slots ≡ true
        → nat_le (objects_cost objects) (state.budget.slots - growth) ≡ false
        → perform (make_and_enter entered dictionary) setting state ≡ record {
          end = fails fault.Space;
          state = record state {
            budget = record {
              units = state.budget.units;
              slots = state.budget.slots - growth;
              text = state.budget.text;
            };
          };
        } }
{}

/// A counter tells its value. An increment past the integers of the language is E6, and any other
/// is an update.
pub fn counters_count()
    ensures value { (name class segment : ℕ) (value : ℤ) (setting : Setting)
        (state : State (Unit {0}))
        → Admits a_read name (an_object class segment (body.Counter (record { value = value })))
        setting state
        → (perform (row_83 (Ref name) []) setting state).end ≡ gives (Gives (Int value)) }
    ensures range { (name class segment : ℕ) (value by : ℤ) (setting : Setting)
        (state : State (Unit {0}))
        → Admits a_write name (an_object class segment (body.Counter (record { value = value })))
        setting state
        → is_small_integer (value +ℤ by) ≡ false
        → (perform (row_84 (Ref name) (Int by ∷ [])) setting state).end
        ≡ fails fault.IntegerRange }
    ensures counted { (name class segment : ℕ) (value by : ℤ) (setting : Setting)
        (state : State (Unit {0}))
        → Admits a_write name (an_object class segment (body.Counter (record { value = value })))
        setting state
        → is_small_integer (value +ℤ by) ≡ true
        → perform (row_84 (Ref name) (Int by ∷ [])) setting state ≡ record {
          end = gives (Gives (Ref name));
          state = record state {
            world = after_update name (change.Counter by) setting
                (accessed a_write name setting state.world);
          };
        } }
{}

/// A bag shows each item as often as it occurs, and none can be removed that doesn't.
pub fn bags_hold_items()
    ensures items { items_of ((Nil, 2) ∷ (True, 1) ∷ []) ≡ Nil ∷ Nil ∷ True ∷ [] }
    ensures absent { (name class segment : ℕ) (item : Value) (pairs : List (Value × ℕ))
        (setting : Setting) (state : State (Unit {0}))
        → Admits a_write name (an_object class segment (body.Bag pairs)) setting state
        → with_one_less value_order item pairs ≡ None
        → (perform (row_86 (Ref name) (item ∷ [])) setting state).end ≡ fails fault.KeyAbsent }
{}

/// What a key of a dictionary of merged updates may be, and E18 where it isn't there.
pub fn keys_of_shared_dictionaries()
    ensures kind { (name class segment : ℕ) (key : Value) (pairs : List (Value × Value))
        (setting : Setting) (state : State (Unit {0}))
        → Admits a_read name (an_object class segment (body.RcDict pairs)) setting state
        → is_key key ≡ false
        → (perform (row_89 (Ref name) (key ∷ [])) setting state).end ≡ fails fault.ArgumentKind }
    ensures absent { (name class segment : ℕ) (key : Value) (pairs : List (Value × Value))
        (setting : Setting) (state : State (Unit {0}))
        → Admits a_write name (an_object class segment (body.RcDict pairs)) setting state
        → is_key key ≡ true → entry value_order key pairs ≡ None
        → (perform (row_91 (Ref name) (key ∷ [])) setting state).end ≡ fails fault.KeyAbsent }
{}

/// A remove from a queue without items answers nil. Nothing changes but by the write access.
pub fn empty_queues()
    ensures { (name class segment removed : ℕ) (setting : Setting) (state : State (Unit {0}))
        → Admits a_write name
        (an_object class segment (body.Queue (record { removed = removed; items = [] })))
        setting state
        → perform (row_95 (Ref name) []) setting state ≡ record {
          end = gives (Gives Nil);
          state = record state { world = accessed a_write name setting state.world };
        } }
{}

/// The rules have their numbers, and no other number has one.
pub fn rules_by_number()
    ensures numbers { (receiver : Value) (arguments : List Value) (setting : Setting)
        (state : State (Unit {0}))
        → let by = λ (number : ℕ). perform (later_rule number receiver arguments) setting state in
        (by 54 ≡ perform (row_54 receiver arguments) setting state)
        × (by 61 ≡ perform (row_61 receiver arguments) setting state)
        × (by 71 ≡ perform (row_71 receiver arguments) setting state)
        × (by 79 ≡ perform (row_79 receiver arguments) setting state)
        × (by 82 ≡ perform (row_82 receiver arguments) setting state)
        × (by 84 ≡ perform (row_84 receiver arguments) setting state)
        × (by 86 ≡ perform (row_86 receiver arguments) setting state)
        × (by 91 ≡ perform (row_91 receiver arguments) setting state)
        × (by 95 ≡ perform (row_95 receiver arguments) setting state) }
    ensures no_rule { (receiver : Value) (arguments : List Value) (setting : Setting)
        (state : State (Unit {0}))
        → (perform (later_rule 97 receiver arguments) setting state).end
        ≡ fails fault.ArgumentKind }
{}

/// The objects that the rules make may be made: a new user's three, a class with names and one
/// without slots, and an Array.
pub fn new_objects_fit()
    ensures user { fit_beside_kernel (user_objects (codes "ada") first_name) ≡ true }
    ensures class { fit_beside_kernel (class_object
        (new_class (codes "Point") 1 kind.Plain (codes "x" ∷ codes "y" ∷ [])) 30 ∷ []) ≡ true }
    ensures dictionary { fit_beside_kernel (class_object
        (new_class (codes "Index") 17 kind.Dict []) 30 ∷ []) ≡ true }
    ensures array { fit_beside_kernel (an_object 13 30 (body.Plain (Nil ∷ [])) ∷ []) ≡ true }
{}

/// Objects that the rules change may stand where they stood: the dictionary of all users with a new
/// user, a segment with a right for a group, and a user in a group.
pub fn changed_objects_fit()
    ensures users { fits
        (with_parts first_name (user_objects (codes "ada") first_name) kernel_parts) ALL_USERS
        (an_object SYMBOL_DICTIONARY_CLASS DATA_CURATOR_SEGMENT
        (with_value_at (Sym (codes "ada")) (Ref (first_name + 2))
        (body.Dict ((Sym (codes "DataCurator"), Ref 32) ∷ [])))) ≡ true }
    ensures segment { fits kernel_parts DATA_CURATOR_SEGMENT
        (an_object SEGMENT_CLASS DATA_CURATOR_SEGMENT
        (body.Segment (with_group_right (codes "staff") Read (record {
          owner = 32;
          owner_right = Write;
          groups = (codes "guests", Write) ∷ [];
          world_right = Read;
        })))) ≡ true }
    ensures user { fits kernel_parts 32 (an_object USER_PROFILE_CLASS DATA_CURATOR_SEGMENT
        (body.User (record {
          name = codes "DataCurator";
          groups = with_group (codes "staff") (codes "guests" ∷ []);
          default_segment = DATA_CURATOR_SEGMENT;
          globals = 34;
        }))) ≡ true }
{}
