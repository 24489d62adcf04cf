//! What follows from the definitions alone. Each law is the contract of a function that does
//! nothing. What stands outside a tree is anything that `Replies` can say.
ghost use Rattle.std.specs.Prelude.{◌≡◌, ◌++◌, ◌∷◌, ◌+ℤ◌, ◌&&◌, [], ℕ, ℤ, pos, suc, int_le, nat_eq, length, slice_get, replicate, codes, Bool, true, false, List, Some, None};
ghost use Rattle.object_programs.specs.texts.Bytes.{Bytes};
ghost use Rattle.object_programs.specs.st_tree.Trees.{Program, Head, block, paren, Closure, closure, Expression, expression, Expressions, no_expressions, an_expression, Send, send, Sends, no_sends, a_send, append_sends, statement, Statements};
ghost use Rattle.object_programs.specs.gem_object.declared.value.Value.{Value};
ghost use Rattle.object_programs.specs.gem_object.declared.value.Value.TheVariants as value;
ghost use Rattle.object_programs.specs.gem_world.World.{Setting};
ghost use Rattle.object_programs.specs.Run.{gives, fails, State};
ghost use Rattle.object_programs.specs.texts.declared.integers.TheConstants.{LARGEST_INTEGER};
ghost use Rattle.object_programs.specs.declared.fault.Fault.TheVariants as fault;
ghost use Rattle.tree_meaning.specs.Place.{Place, Frame, MadeBlock};
ghost use Rattle.tree_meaning.specs.Names.{variable_in, where_is, singleton_value};
ghost use Rattle.tree_meaning.specs.Forms.{takes, form_of, loop_of};
ghost use Rattle.tree_meaning.specs.Operands.{truth_of, int_pair};
ghost use Rattle.tree_meaning.specs.Scopes.{mark, with_scope, open_scope, begin_method, give_back, is_living, end_living};
ghost use Rattle.tree_meaning.specs.Loops.{while_turns, count_turns, count_between};
ghost use Rattle.tree_meaning.specs.Parts.{with_variables, statements_in_turn};
ghost use Rattle.tree_meaning.specs.Meaning.{is_super_head, write_where, head_value, closure_in_place, expression_value, message_of, statement_value, statement_runs};
ghost use Rattle.tree_meaning.specs.Bodies.{params_count, temps_count, method_body, block_body};
ghost use Rattle.tree_meaning.specs.Calls.{method_frame, activation, evaluation, call_block_at};
ghost use Rattle.tree_meaning.specs.Replies.{Replies, outside_of};
ghost use Rattle.tree_meaning.specs.Reading.{IsVariable, IsNoVariable, a_block, one_argument, two_arguments, deed, answers, returns_to, stops, then_do, either, unit_then, by_condition, caught, in_order, sent, sent_in_turn};
ghost use Rattle.tree_meaning.specs.Samples.{ComesTo, counting, repeating, looping, cascading, hiding, returning, doubting};
ghost use Rattle.tree_meaning.specs.declared.form.Form.TheVariants.{Plain, OneArm, TwoArms, Counting, Repeating};
ghost use Rattle.tree_meaning.specs.declared.name.Singleton.{Singleton};
ghost use Rattle.tree_meaning.specs.declared.name.Where.TheVariants.{Receiver, Fixed, Variable, OutOfScope};
ghost use Rattle.tree_meaning.specs.declared.name.Singleton.TheVariants as singleton;

/// A name that isn't `self`, `super`, `nil`, `true` or `false` stands for the variable of this name
/// in the innermost scope that has one: an inner name hides an outer one.
pub fn names_are_found()
    ensures variable { (text : Bytes) (names : List (List Bytes)) (depth index : ℕ)
        → variable_in text names ≡ Variable depth index → IsVariable text names depth index }
    ensures no_variable { (text : Bytes) (names : List (List Bytes))
        → variable_in text names ≡ OutOfScope → IsNoVariable text names }
    ensures pseudo { (names : List (List Bytes))
        → (where_is (codes "self") names ≡ Receiver) × (where_is (codes "super") names ≡ Receiver)
        × (where_is (codes "nil") names ≡ Fixed singleton.Nil)
        × (where_is (codes "true") names ≡ Fixed singleton.True)
        × (where_is (codes "false") names ≡ Fixed singleton.False) }
{}

/// A message that is sent: its arguments from left to right, and then the send.
pub fn messages_are_sent()
    ensures { (replies : Replies) (setting : Setting) (place : Place) (frame : Frame)
        (state : State MadeBlock) (to_super : Bool) (receiver : Value) (selector : Bytes)
        (arguments : Expressions)
        → sent (outside_of replies) setting place frame to_super receiver (send selector arguments)
        state
        ≡ in_order (outside_of replies) setting place frame arguments [] (λ values.
        deed setting ((outside_of replies).send_message to_super selector frame receiver values))
        state }
{}

/// A cascade: what stands before its first message gives the receiver, and each of its messages is
/// sent to that. They are sent to `super` where this is the receiver.
pub fn cascades_have_one_receiver()
    ensures first { (replies : Replies) (setting : Setting) (place : Place) (frame : Frame)
        (state : State MadeBlock) (head : Head) (message next : Send) (rest : Sends)
        → deed setting (expression_value (outside_of replies)
        (expression [] head (a_send message no_sends) (a_send next rest)) place frame) state
        ≡ then_do
        (deed setting (expression_value (outside_of replies)
        (expression [] head no_sends no_sends) place frame))
        (λ receiver. sent_in_turn (outside_of replies) setting place frame (is_super_head head)
        receiver message (a_send next rest)) state }
    ensures later { (replies : Replies) (setting : Setting) (place : Place) (frame : Frame)
        (state : State MadeBlock) (head : Head) (before : Sends) (first message next : Send)
        (rest : Sends)
        → deed setting (expression_value (outside_of replies)
        (expression [] head (a_send first (append_sends before (a_send message no_sends)))
        (a_send next rest)) place frame) state
        ≡ then_do
        (deed setting (expression_value (outside_of replies)
        (expression [] head (a_send first before) no_sends) place frame))
        (λ receiver. sent_in_turn (outside_of replies) setting place frame false
        receiver message (a_send next rest)) state }
{}

/// Assignments go from right to left, after the value, which they answer.
pub fn assignments_go_leftwards()
    ensures { (replies : Replies) (setting : Setting) (place : Place) (frame : Frame)
        (state : State MadeBlock) (name : Bytes) (rest : List Bytes) (head : Head)
        (messages cascade : Sends)
        → deed setting (expression_value (outside_of replies)
        (expression (name ∷ rest) head messages cascade) place frame) state
        ≡ then_do
        (deed setting (expression_value (outside_of replies)
        (expression rest head messages cascade) place frame))
        (λ answer. deed setting (write_where (outside_of replies) (where_is name place.names) name
        frame answer)) state }
{}

/// `^` answers from the home: in a method that is the method itself; in a block it is the method in
/// which the block stands, and E8 where that has ended.
pub fn returns_go_home()
    ensures method { (replies : Replies) (setting : Setting) (names : List (List Bytes))
        (frame : Frame) (state : State MadeBlock) (tree : Expression)
        → deed setting (statement_value (outside_of replies) (statement true tree)
        (record { names = names; in_block = false }) frame) state
        ≡ then_do (deed setting (expression_value (outside_of replies) tree
        (record { names = names; in_block = false }) frame))
        (λ answer. returns_to answer frame.home) state }
    ensures block { (replies : Replies) (setting : Setting) (names : List (List Bytes))
        (frame : Frame) (state : State MadeBlock) (tree : Expression)
        → deed setting (statement_value (outside_of replies) (statement true tree)
        (record { names = names; in_block = true }) frame) state
        ≡ then_do (deed setting (expression_value (outside_of replies) tree
        (record { names = names; in_block = true }) frame))
        (λ answer later. either (is_living frame.home later.local)
        (returns_to answer frame.home) (stops fault.DeadHome) later) state }
{}

/// A block is a new one each time: it keeps its tree, its place and the frame, and the blocks are
/// numbered in turn.
pub fn blocks_are_made()
    ensures { (replies : Replies) (setting : Setting) (place : Place) (frame : Frame)
        (state : State MadeBlock) (tree : Closure)
        → deed setting (head_value (outside_of replies) (block tree) place frame) state
        ≡ answers
        (value.Block (record { number = length state.local.blocks; params = params_count tree }))
        (record state {
          local = record state.local {
            blocks = state.local.blocks
                ++ record { tree = tree; place = place; frame = frame } ∷ [];
          };
        }) }
{}

/// The block of a special form is evaluated in its place. Without variables of its own it does what
/// its statements do; its temporaries are in a scope of their own, nil at first, which is closed
/// after the answer.
pub fn blocks_in_place()
    ensures plain { (replies : Replies) (setting : Setting) (place : Place) (frame : Frame)
        (state : State MadeBlock) (body : Statements)
        → deed setting (closure_in_place (outside_of replies) (closure [] [] body) place None frame)
        state
        ≡ deed setting (statements_in_turn (statement_runs (outside_of replies) body) place frame)
        state }
    ensures temporaries { (replies : Replies) (setting : Setting) (place : Place) (frame : Frame)
        (state : State MadeBlock) (name : Bytes) (rest : List Bytes) (body : Statements)
        → deed setting (closure_in_place (outside_of replies) (closure [] (name ∷ rest) body) place
        None frame) state
        ≡ then_do
        (deed setting (statements_in_turn (statement_runs (outside_of replies) body)
        (with_variables (name ∷ rest) place) (with_scope (mark state.local) frame)))
        (λ answer later. answers answer
        (record later { local = give_back (mark state.local) later.local }))
        (record state {
          local = open_scope (replicate (suc (length rest)) value.Nil) state.local;
        }) }
{}

/// Which messages are special forms, where their blocks have no parameters, and that of `to:do:`
/// one.
pub fn special_forms()
    ensures if_true { (arm : Closure) → takes 0 arm ≡ true
        → form_of (codes "ifTrue:") (one_argument (a_block arm)) ≡ OneArm true singleton.Nil }
    ensures if_false { (arm : Closure) → takes 0 arm ≡ true
        → form_of (codes "ifFalse:") (one_argument (a_block arm)) ≡ OneArm false singleton.Nil }
    ensures both { (arm : Closure) → takes 0 arm ≡ true
        → form_of (codes "and:") (one_argument (a_block arm)) ≡ OneArm true singleton.False }
    ensures either { (arm : Closure) → takes 0 arm ≡ true
        → form_of (codes "or:") (one_argument (a_block arm)) ≡ OneArm false singleton.True }
    ensures true_first { (arm other : Closure) → takes 0 arm ≡ true → takes 0 other ≡ true
        → form_of (codes "ifTrue:ifFalse:") (two_arguments (a_block arm) (a_block other))
        ≡ TwoArms true }
    ensures false_first { (arm other : Closure) → takes 0 arm ≡ true → takes 0 other ≡ true
        → form_of (codes "ifFalse:ifTrue:") (two_arguments (a_block arm) (a_block other))
        ≡ TwoArms false }
    ensures counting { (limit : Expression) (body : Closure) → takes 1 body ≡ true
        → form_of (codes "to:do:") (two_arguments limit (a_block body)) ≡ Counting }
    ensures repeating { (body : Closure) → takes 0 body ≡ true
        → form_of (codes "timesRepeat:") (one_argument (a_block body)) ≡ Repeating }
    ensures parentheses { (selector : Bytes) (inner : Expression)
        → form_of selector (one_argument (expression [] (paren inner) no_sends no_sends)) ≡ Plain }
    ensures while_true { (condition body : Closure) → takes 0 condition ≡ true
        → takes 0 body ≡ true
        → loop_of (block condition) (send (codes "whileTrue:") (one_argument (a_block body)))
        ≡ Some true }
    ensures while_false { (condition body : Closure) → takes 0 condition ≡ true
        → takes 0 body ≡ true
        → loop_of (block condition) (send (codes "whileFalse:") (one_argument (a_block body)))
        ≡ Some false }
    ensures to_super { (replies : Replies) (setting : Setting) (place : Place) (frame : Frame)
        (state : State MadeBlock) (receiver : Value) (message : Send)
        → deed setting ((message_of (outside_of replies) message).by_form true receiver place frame)
        state ≡ sent (outside_of replies) setting place frame true receiver message state }
{}

/// A condition: a unit, and then one of the arms, or where there is only one, the object that
/// stands for the other.
pub fn conditions_choose()
    ensures one_arm { (replies : Replies) (setting : Setting) (place : Place) (frame : Frame)
        (state : State MadeBlock) (receiver : Value) (selector : Bytes) (arm : Closure)
        (when : Bool) (otherwise : Singleton)
        → form_of selector (one_argument (a_block arm)) ≡ OneArm when otherwise
        → deed setting ((message_of (outside_of replies)
        (send selector (one_argument (a_block arm)))).by_form false receiver place frame) state
        ≡ unit_then (by_condition (truth_of receiver) when
        (deed setting (closure_in_place (outside_of replies) arm place None frame))
        (answers (singleton_value otherwise))) state }
    ensures two_arms { (replies : Replies) (setting : Setting) (place : Place) (frame : Frame)
        (state : State MadeBlock) (receiver : Value) (selector : Bytes) (arm other : Closure)
        (when : Bool)
        → form_of selector (two_arguments (a_block arm) (a_block other)) ≡ TwoArms when
        → deed setting ((message_of (outside_of replies)
        (send selector (two_arguments (a_block arm) (a_block other)))).by_form
        false receiver place frame) state
        ≡ unit_then (by_condition (truth_of receiver) when
        (deed setting (closure_in_place (outside_of replies) arm place None frame))
        (deed setting (closure_in_place (outside_of replies) other place None frame))) state }
{}

/// A while loop: a unit, and then its turns. They begin with the condition. Where it is the truth
/// value of the selector, a unit, the body and the turns that follow; where it is the other one,
/// nil.
pub fn while_loops_turn()
    ensures begins { (replies : Replies) (setting : Setting) (place : Place) (frame : Frame)
        (state : State MadeBlock) (selector : Bytes) (condition body : Closure) (when : Bool)
        → loop_of (block condition) (send selector (one_argument (a_block body))) ≡ Some when
        → deed setting (expression_value (outside_of replies) (expression [] (block condition)
        (a_send (send selector (one_argument (a_block body))) no_sends) no_sends) place frame) state
        ≡ unit_then (deed setting (while_turns when
        (closure_in_place (outside_of replies) condition place None frame)
        (closure_in_place (outside_of replies) body place None frame))) state }
    ensures turns { (replies : Replies) (setting : Setting) (place : Place) (frame : Frame)
        (state : State MadeBlock) (condition body : Closure) (when : Bool)
        → deed setting (while_turns when
        (closure_in_place (outside_of replies) condition place None frame)
        (closure_in_place (outside_of replies) body place None frame)) state
        ≡ then_do (deed setting (closure_in_place (outside_of replies) condition place None frame))
        (λ test. by_condition (truth_of test) when
        (unit_then (then_do
        (deed setting (closure_in_place (outside_of replies) body place None frame))
        (λ answer. deed setting (while_turns when
        (closure_in_place (outside_of replies) condition place None frame)
        (closure_in_place (outside_of replies) body place None frame)))))
        (answers value.Nil)) state }
{}

/// A counting loop: the limit, a unit, and then its turns; E5 unless both ends are integers. While
/// the number isn't above the limit: a unit, the body with it, and the turns from the next integer
/// on, where there is one. The answer is the receiver. `timesRepeat:` counts from 1 to the
/// receiver, and its body is handed nothing.
pub fn counting_loops_turn()
    ensures begins { (replies : Replies) (setting : Setting) (place : Place) (frame : Frame)
        (state : State MadeBlock) (receiver : Value) (limit : Expression) (body : Closure)
        → takes 1 body ≡ true
        → deed setting ((message_of (outside_of replies) (send (codes "to:do:")
        (two_arguments limit (a_block body)))).by_form false receiver place frame) state
        ≡ then_do (deed setting (expression_value (outside_of replies) limit place frame))
        (λ last. unit_then (deed setting (count_between (int_pair receiver last)
        (λ number. closure_in_place (outside_of replies) body place (Some number) frame)
        receiver))) state }
    ensures repeats { (replies : Replies) (setting : Setting) (place : Place) (frame : Frame)
        (state : State MadeBlock) (receiver : Value) (body : Closure)
        → takes 0 body ≡ true
        → deed setting ((message_of (outside_of replies) (send (codes "timesRepeat:")
        (one_argument (a_block body)))).by_form false receiver place frame) state
        ≡ unit_then (deed setting (count_between (int_pair (value.Int (pos 1)) receiver)
        (λ number. closure_in_place (outside_of replies) body place None frame) receiver)) state }
    ensures turns { (replies : Replies) (setting : Setting) (place : Place) (frame : Frame)
        (state : State MadeBlock) (number limit : ℤ) (body : Closure) (receiver : Value)
        → deed setting (count_turns number limit
        (λ each. closure_in_place (outside_of replies) body place (Some each) frame) receiver) state
        ≡ either (int_le number limit)
        (unit_then (then_do
        (deed setting (closure_in_place (outside_of replies) body place (Some (value.Int number))
        frame))
        (λ ended. either (int_le LARGEST_INTEGER number)
        (answers receiver)
        (deed setting (count_turns (number +ℤ pos 1) limit
        (λ each. closure_in_place (outside_of replies) body place (Some each) frame) receiver)))))
        (answers receiver) state }
{}

/// A method runs its statements in a new activation, with its arguments and its temporaries, which
/// are nil, in a scope of its own. A value that returns to it is its answer. Then the activation
/// lives no more, and what came since is given back, unless a block was made.
pub fn methods_run()
    ensures run { (replies : Replies) (setting : Setting) (state : State MadeBlock) (tree : Program)
        (holder : ℕ) (class_side : Bool) (receiver : Value) (arguments : List Value)
        → let statements = deed setting (method_body (outside_of replies) tree
        (method_frame holder class_side receiver state.local))
        (record state {
          local = begin_method (arguments ++ replicate (length tree.temps) value.Nil) state.local;
        }) in
        deed setting (activation (method_body (outside_of replies) tree) (length tree.temps) holder
        class_side receiver arguments) state
        ≡ record {
          end = caught (length state.local.living) statements.end;
          state = record statements.state {
            local = give_back (mark state.local)
                (end_living (length state.local.living) statements.state.local);
          };
        } }
    ensures ended { (replies : Replies) (setting : Setting) (state : State MadeBlock)
        (tree : Program) (holder : ℕ) (class_side : Bool) (receiver : Value)
        (arguments : List Value)
        → is_living (length state.local.living) (deed setting
        (activation (method_body (outside_of replies) tree) (length tree.temps) holder class_side
        receiver arguments) state).state.local ≡ false }
{}

/// A made block runs its statements inside the scopes in which it was made, with its arguments and
/// its temporaries in a scope of its own, which is given back unless a block was made. It ends as
/// its statements end. Another number of arguments is E9, and a number that no block has E5.
pub fn blocks_run()
    ensures run { (replies : Replies) (setting : Setting) (state : State MadeBlock)
        (made : MadeBlock) (arguments : List Value)
        → let statements = deed setting (block_body (outside_of replies) made.tree made.place
        (with_scope (mark state.local) made.frame))
        (record state {
          local = open_scope (arguments ++ replicate (temps_count made.tree) value.Nil) state.local;
        }) in
        deed setting (evaluation (block_body (outside_of replies) made.tree made.place)
        (temps_count made.tree) made.frame arguments) state
        ≡ record {
          end = statements.end;
          state = record statements.state {
            local = give_back (mark state.local) statements.state.local;
          };
        } }
    ensures called { (replies : Replies) (setting : Setting) (state : State MadeBlock)
        (made : MadeBlock) (number : ℕ) (arguments : List Value)
        → slice_get state.local.blocks number ≡ Some made
        → nat_eq (length arguments) (params_count made.tree) ≡ true
        → deed setting (call_block_at (λ block values.
        evaluation (block_body (outside_of replies) block.tree block.place)
        (temps_count block.tree) block.frame values) number arguments) state
        ≡ deed setting (evaluation (block_body (outside_of replies) made.tree made.place)
        (temps_count made.tree) made.frame arguments) state }
    ensures other_count { (replies : Replies) (setting : Setting) (state : State MadeBlock)
        (made : MadeBlock) (number : ℕ) (arguments : List Value)
        → slice_get state.local.blocks number ≡ Some made
        → nat_eq (length arguments) (params_count made.tree) ≡ false
        → deed setting (call_block_at (λ block values.
        evaluation (block_body (outside_of replies) block.tree block.place)
        (temps_count block.tree) block.frame values) number arguments) state
        ≡ stops fault.BlockArgumentCount state }
    ensures no_block { (replies : Replies) (setting : Setting) (state : State MadeBlock)
        (number : ℕ) (arguments : List Value)
        → slice_get state.local.blocks number ≡ None
        → deed setting (call_block_at (λ block values.
        evaluation (block_body (outside_of replies) block.tree block.place)
        (temps_count block.tree) block.frame values) number arguments) state
        ≡ stops fault.ArgumentKind state }
{}

/// Worked chunks: `1 to: 3 do: [:i | a := a + i]` from 0 on makes 6, and takes a unit for itself,
/// one for each turn and one for each `+`; and so on.
pub fn worked_chunks()
    ensures counting { (setting : Setting)
        → ComesTo counting setting (gives (value.Int (pos 6))) 93 }
    ensures repeating { (setting : Setting)
        → ComesTo repeating setting (gives (value.Int (pos 6))) 93 }
    ensures looping { (setting : Setting) → ComesTo looping setting (gives value.Nil) 98 }
    ensures cascading { (setting : Setting)
        → ComesTo cascading setting (gives (value.Int (pos 11))) 98 }
    ensures hiding { (setting : Setting)
        → ComesTo hiding setting (gives (value.Int (pos 7))) 93 }
    ensures returning { (setting : Setting)
        → ComesTo returning setting (gives (value.Int (pos 1))) 98 }
    ensures doubting { (setting : Setting) → ComesTo doubting setting (fails fault.NotBoolean) 99 }
{}
