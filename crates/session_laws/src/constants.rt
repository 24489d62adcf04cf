//! The constants that the definitions cite, as numbers.
ghost use Rattle.std.specs.Prelude.{◌≡◌, ◌-◌, ◌^◌, pos, neg_ℤ};
ghost use Rattle.gem_meaning.specs.texts.declared.integers.TheConstants.{INTEGER_LIMIT, SMALLEST_INTEGER, LARGEST_INTEGER};
ghost use Rattle.gem_meaning.specs.texts.declared.limits.TheConstants.{SYMBOL_LIMIT, USER_LIMIT};
ghost use Rattle.gem_meaning.specs.shell_words.declared.limits.TheConstants.{SCRIPT_LIMIT, SESSION_LIMIT, COMMAND_LIMIT, CHUNK_LIMIT};
ghost use Rattle.gem_meaning.specs.gem_record.declared.limits.TheConstants.{LOG_LIMIT, PAGE_LIMIT};
ghost use Rattle.gem_meaning.specs.st_grammar.declared.limits.TheConstants.{DEPTH_LIMIT};
ghost use Rattle.gem_meaning.specs.object_programs.declared.limits.TheConstants.{UNIT_LIMIT, SPACE_LIMIT, SLOTS_LIMIT, BYTES_LIMIT, TRANSCRIPT_LIMIT, COUNTER_LIMIT, ACTIVATION_LIMIT, GROUPS_LIMIT, PRINT_LIMIT};
ghost use Rattle.gem_meaning.specs.gem_sound.declared.limits.TheConstants.{NAMES_LIMIT};
ghost use Rattle.gem_meaning.specs.gem_sound.declared.names.TheConstants.{KERNEL_SERIAL, OBJECT_CLASS, CLASS_CLASS, UNDEFINED_OBJECT_CLASS, BOOLEAN_CLASS, TRUE_CLASS, FALSE_CLASS, MAGNITUDE_CLASS, CHARACTER_CLASS, SMALL_INTEGER_CLASS, BLOCK_CLASS, COLLECTION_CLASS, SEQUENCEABLE_COLLECTION_CLASS, ARRAY_CLASS, ORDERED_COLLECTION_CLASS, STRING_CLASS, SYMBOL_CLASS, IDENTITY_DICTIONARY_CLASS, SYMBOL_DICTIONARY_CLASS, RC_COUNTER_CLASS, RC_IDENTITY_BAG_CLASS, RC_KEY_VALUE_DICTIONARY_CLASS, RC_QUEUE_CLASS, SEGMENT_CLASS, USER_PROFILE_CLASS, SYSTEM_CLASS, TRANSCRIPT_STREAM_CLASS, GLOBALS, ALL_USERS, SYSTEM_SEGMENT, DATA_CURATOR_SEGMENT, SYSTEM_USER, DATA_CURATOR, SYSTEM_USER_GLOBALS, DATA_CURATOR_GLOBALS, TRANSCRIPT};

/// The limits of scripts, of texts, of what a chunk may use, of what an object may hold and of what
/// may be stored.
pub fn limits_are()
    ensures smallest_integer { SMALLEST_INTEGER ≡ neg_ℤ (pos (2 ^ 60)) }
    ensures largest_integer { LARGEST_INTEGER ≡ pos (2 ^ 60 - 1) }
    ensures integer { INTEGER_LIMIT ≡ 2 ^ 60 }
    ensures script { SCRIPT_LIMIT ≡ 1048576 }
    ensures sessions { SESSION_LIMIT ≡ 16 }
    ensures commands { COMMAND_LIMIT ≡ 1048576 }
    ensures chunk { CHUNK_LIMIT ≡ 65536 }
    ensures depth { DEPTH_LIMIT ≡ 200 }
    ensures symbol { SYMBOL_LIMIT ≡ 1000 }
    ensures user { USER_LIMIT ≡ 64 }
    ensures units { UNIT_LIMIT ≡ 1000000 }
    ensures space { SPACE_LIMIT ≡ 4000000 }
    ensures activations { ACTIVATION_LIMIT ≡ 2000 }
    ensures transcript { TRANSCRIPT_LIMIT ≡ 65536 }
    ensures print_text { PRINT_LIMIT ≡ 65536 }
    ensures slots { SLOTS_LIMIT ≡ 65000 }
    ensures bytes { BYTES_LIMIT ≡ 1048576 }
    ensures log { LOG_LIMIT ≡ 67108864 }
    ensures pages { PAGE_LIMIT ≡ 262144 }
    ensures counters { COUNTER_LIMIT ≡ 2 ^ 24 }
    ensures names { NAMES_LIMIT ≡ 200 }
    ensures groups { GROUPS_LIMIT ≡ 100 }
{}

/// The names of the kernel's objects: the serial of all, and the counter of each.
pub fn names_are()
    ensures serial { KERNEL_SERIAL ≡ 0 }
    ensures object { OBJECT_CLASS ≡ 1 }
    ensures class { CLASS_CLASS ≡ 2 }
    ensures undefined_object { UNDEFINED_OBJECT_CLASS ≡ 3 }
    ensures boolean { BOOLEAN_CLASS ≡ 4 }
    ensures yes { TRUE_CLASS ≡ 5 }
    ensures no { FALSE_CLASS ≡ 6 }
    ensures magnitude { MAGNITUDE_CLASS ≡ 7 }
    ensures character { CHARACTER_CLASS ≡ 8 }
    ensures small_integer { SMALL_INTEGER_CLASS ≡ 9 }
    ensures block { BLOCK_CLASS ≡ 10 }
    ensures collection { COLLECTION_CLASS ≡ 11 }
    ensures sequenceable_collection { SEQUENCEABLE_COLLECTION_CLASS ≡ 12 }
    ensures array { ARRAY_CLASS ≡ 13 }
    ensures ordered_collection { ORDERED_COLLECTION_CLASS ≡ 14 }
    ensures string { STRING_CLASS ≡ 15 }
    ensures symbol { SYMBOL_CLASS ≡ 16 }
    ensures identity_dictionary { IDENTITY_DICTIONARY_CLASS ≡ 17 }
    ensures symbol_dictionary { SYMBOL_DICTIONARY_CLASS ≡ 18 }
    ensures rc_counter { RC_COUNTER_CLASS ≡ 19 }
    ensures rc_identity_bag { RC_IDENTITY_BAG_CLASS ≡ 20 }
    ensures rc_key_value_dictionary { RC_KEY_VALUE_DICTIONARY_CLASS ≡ 21 }
    ensures rc_queue { RC_QUEUE_CLASS ≡ 22 }
    ensures segment { SEGMENT_CLASS ≡ 23 }
    ensures user_profile { USER_PROFILE_CLASS ≡ 24 }
    ensures system { SYSTEM_CLASS ≡ 25 }
    ensures transcript_stream { TRANSCRIPT_STREAM_CLASS ≡ 26 }
    ensures globals { GLOBALS ≡ 27 }
    ensures all_users { ALL_USERS ≡ 28 }
    ensures system_segment { SYSTEM_SEGMENT ≡ 29 }
    ensures data_curator_segment { DATA_CURATOR_SEGMENT ≡ 30 }
    ensures system_user { SYSTEM_USER ≡ 31 }
    ensures data_curator { DATA_CURATOR ≡ 32 }
    ensures system_user_globals { SYSTEM_USER_GLOBALS ≡ 33 }
    ensures data_curator_globals { DATA_CURATOR_GLOBALS ≡ 34 }
    ensures transcript { TRANSCRIPT ≡ 35 }
{}
