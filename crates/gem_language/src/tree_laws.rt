//! What trees mean with all that stands outside them in the language. Each law is the contract of a
//! function that does nothing.
ghost use Rattle.std.specs.Prelude.{◌≡◌, ◌++◌, ◌∷◌, [], ℕ, length, reverse, Bool, true, false, List, Some, None};
ghost use Rattle.gem_object.specs.texts.Bytes.{Bytes as Text};
ghost use Rattle.object_programs.specs.st_tree.Trees.{Head, name, constant, block, Constant, Closure, Expression, expression, Expressions, Send, send, Sends, no_sends, a_send, statement};
ghost use Rattle.gem_object.specs.declared.value.Value.{Value};
ghost use Rattle.gem_object.specs.declared.value.Value.TheVariants as value;
ghost use Rattle.object_programs.specs.gem_world.World.{Setting};
ghost use Rattle.object_programs.specs.Run.{State};
ghost use Rattle.object_programs.specs.declared.fault.Fault.TheVariants as fault;
ghost use Rattle.tree_meaning.specs.Place.{Place, Frame, MadeBlock};
ghost use Rattle.tree_meaning.specs.Names.{where_is};
ghost use Rattle.tree_meaning.specs.Forms.{loop_of};
ghost use Rattle.tree_meaning.specs.Operands.{truth_of};
ghost use Rattle.tree_meaning.specs.Scopes.{is_living};
ghost use Rattle.tree_meaning.specs.Loops.{while_turns};
ghost use Rattle.tree_meaning.specs.Meaning.{is_super_head, plain_constant, write_where, head_value, closure_in_place, expression_value, statement_value};
ghost use Rattle.tree_meaning.specs.Bodies.{params_count};
ghost use Rattle.tree_meaning.specs.Reading.{a_block, one_argument, deed, answers, returns_to, stops, then_do, either, unit_then, by_condition, in_order, sent, sent_in_turn};
ghost use Rattle.tree_meaning.specs.declared.name.Where.TheVariants.{OutOfScope};
ghost use Rattle.gem_language.specs.OutOfScope.{read_out_of_scope, write_out_of_scope};
ghost use Rattle.gem_language.specs.Literals.{literal_value};
ghost use Rattle.gem_language.specs.Sends.{outside};
ghost use Rattle.gem_language.specs.Reading.{Sent, send_program};

/// A message that is sent: its arguments from left to right, and then the send, of which
/// `SendComes` says what it comes to. A cascade sends all its messages to one receiver.
pub fn messages_are_sent()
    ensures message { (depth : ℕ) (setting : Setting) (place : Place) (frame : Frame)
        (state : State MadeBlock) (to_super : Bool) (receiver : Value) (selector : Text)
        (arguments : Expressions)
        → sent (outside depth) setting place frame to_super receiver (send selector arguments) state
        ≡ in_order (outside depth) setting place frame arguments [] (λ values.
        deed setting (send_program depth (record {
          to_super = to_super;
          selector = selector;
          frame = frame;
          receiver = receiver;
          arguments = reverse values;
        }))) state }
    ensures cascade { (depth : ℕ) (setting : Setting) (place : Place) (frame : Frame)
        (state : State MadeBlock) (head : Head) (message next : Send) (rest : Sends)
        → deed setting (expression_value (outside depth)
        (expression [] head (a_send message no_sends) (a_send next rest)) place frame) state
        ≡ then_do
        (deed setting (expression_value (outside depth) (expression [] head no_sends no_sends) place
        frame))
        (λ receiver. sent_in_turn (outside depth) setting place frame (is_super_head head) receiver
        message (a_send next rest)) state }
{}

/// A name that is no variable in scope, an assignment to one, and a string or an array that is
/// written out come to what their relations say.
pub fn names_and_literals()
    ensures name { (depth : ℕ) (setting : Setting) (place : Place) (frame : Frame)
        (state : State MadeBlock) (text : Text) → where_is text place.names ≡ OutOfScope
        → deed setting (head_value (outside depth) (name text) place frame) state
        ≡ deed setting (read_out_of_scope text frame) state }
    ensures assignment { (depth : ℕ) (setting : Setting) (place : Place) (frame : Frame)
        (state : State MadeBlock) (text : Text) (answer : Value)
        → where_is text place.names ≡ OutOfScope
        → deed setting (write_where (outside depth) (where_is text place.names) text frame answer)
        state ≡ deed setting (write_out_of_scope text frame answer) state }
    ensures literal { (depth : ℕ) (setting : Setting) (place : Place) (frame : Frame)
        (state : State MadeBlock) (tree : Constant) → plain_constant tree ≡ None
        → deed setting (head_value (outside depth) (constant tree) place frame) state
        ≡ deed setting (literal_value tree) state }
{}

/// A block is a new one each time. `^` answers from the home: in a method that is the method
/// itself; in a block it is the method in which the block stands, and E8 where that has ended.
pub fn blocks_and_returns()
    ensures made { (depth : ℕ) (setting : Setting) (place : Place) (frame : Frame)
        (state : State MadeBlock) (tree : Closure)
        → deed setting (head_value (outside depth) (block tree) place frame) state
        ≡ answers
        (value.Block (record { number = length state.local.blocks; params = params_count tree }))
        (record state {
          local = record state.local {
            blocks = state.local.blocks
                ++ record { tree = tree; place = place; frame = frame } ∷ [];
          };
        }) }
    ensures from_method { (depth : ℕ) (setting : Setting) (names : List (List Text))
        (frame : Frame) (state : State MadeBlock) (tree : Expression)
        → deed setting (statement_value (outside depth) (statement true tree)
        (record { names = names; in_block = false }) frame) state
        ≡ then_do (deed setting (expression_value (outside depth) tree
        (record { names = names; in_block = false }) frame))
        (λ answer. returns_to answer frame.home) state }
    ensures from_block { (depth : ℕ) (setting : Setting) (names : List (List Text)) (frame : Frame)
        (state : State MadeBlock) (tree : Expression)
        → deed setting (statement_value (outside depth) (statement true tree)
        (record { names = names; in_block = true }) frame) state
        ≡ then_do (deed setting (expression_value (outside depth) tree
        (record { names = names; in_block = true }) frame))
        (λ answer later. either (is_living frame.home later.local)
        (returns_to answer frame.home) (stops fault.DeadHome) later) state }
{}

/// A while loop: a unit, and then its turns. They begin with the condition. Where it is the truth
/// value of the selector, a unit, the body and the turns that follow; where it is the other one,
/// nil.
pub fn while_loops_turn()
    ensures begins { (depth : ℕ) (setting : Setting) (place : Place) (frame : Frame)
        (state : State MadeBlock) (selector : Text) (condition body : Closure) (when : Bool)
        → loop_of (block condition) (send selector (one_argument (a_block body))) ≡ Some when
        → deed setting (expression_value (outside depth) (expression [] (block condition)
        (a_send (send selector (one_argument (a_block body))) no_sends) no_sends) place frame) state
        ≡ unit_then (deed setting (while_turns when
        (closure_in_place (outside depth) condition place None frame)
        (closure_in_place (outside depth) body place None frame))) state }
    ensures turns { (depth : ℕ) (setting : Setting) (place : Place) (frame : Frame)
        (state : State MadeBlock) (condition body : Closure) (when : Bool)
        → deed setting (while_turns when
        (closure_in_place (outside depth) condition place None frame)
        (closure_in_place (outside depth) body place None frame)) state
        ≡ then_do (deed setting (closure_in_place (outside depth) condition place None frame))
        (λ test. by_condition (truth_of test) when
        (unit_then (then_do
        (deed setting (closure_in_place (outside depth) body place None frame))
        (λ answer. deed setting (while_turns when
        (closure_in_place (outside depth) condition place None frame)
        (closure_in_place (outside depth) body place None frame)))))
        (answers value.Nil)) state }
{}
