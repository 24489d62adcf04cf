//! What follows from the definitions alone. Each law is the contract of a function that does
//! nothing.
ghost use Rattle.std.specs.Prelude.{◌≡◌, ◌≤◌, ◌+◌, ◌*◌, ◌++◌, [], ℕ, Bool, List, length, Option, Some, None, true, false, map, bytes_eq};
ghost use Rattle.gem_object.specs.texts.Bytes.{Bytes as Text};
ghost use Rattle.object_programs.specs.st_tree.Trees.{Constant, Program};
ghost use Rattle.gem_object.specs.declared.value.Value.{Value};
ghost use Rattle.gem_object.specs.declared.value.Value.TheVariants.{Nil, Ref, Block};
ghost use Rattle.gem_object.specs.declared.value.BlockRef.{BlockRef};
ghost use Rattle.gem_object.specs.declared.body.Method.{Method};
ghost use Rattle.object_programs.specs.Spelled.{texts_ascend};
ghost use Rattle.object_programs.specs.gem_image.Image.{Image, Contents, Objects};
ghost use Rattle.object_programs.specs.gem_world.World.{Setting, World, shown_objects};
ghost use Rattle.object_programs.specs.gem_world.Access.{IsTouched};
ghost use Rattle.object_programs.specs.Budget.{whole_budget};
ghost use Rattle.object_programs.specs.Fixed.{fixed_by};
ghost use Rattle.object_programs.specs.Laws.{rebased, Stays, AgreeOnTouched, Falls, KeepsParts, AreFree, IsInReach, UpdatesTell, AreSound};
ghost use Rattle.object_programs.specs.Run.{State, Ending, gives, fails, perform};
ghost use Rattle.tree_meaning.specs.Place.{Frame, MadeBlock};
ghost use Rattle.gem_language.specs.LookUp.{code_of, find_method};
ghost use Rattle.gem_language.specs.OutOfScope.{instance_names, slot_of, find_global, read_out_of_scope, write_out_of_scope};
ghost use Rattle.gem_language.specs.Literals.{has_symbols, literal_value};
ghost use Rattle.tree_meaning.specs.Bodies.{chunk_body};
ghost use Rattle.tree_meaning.specs.Calls.{activation};
ghost use Rattle.gem_language.specs.Sends.{outside, chunk_value};
ghost use Rattle.gem_language.specs.Comes.{Comes, OnlyTouched, IsAnswered};
ghost use Rattle.gem_language.specs.Finds.{FindsFor};
ghost use Rattle.gem_language.specs.Reading.{Sent, SendComes, send_program};
ghost use Rattle.gem_language.specs.ReadingNames.{HasGlobal, HasValue, Assigns, Writes};
ghost use Rattle.gem_language.specs.ReadingLiterals.{HasLiteral, HasLongSymbol};
ghost use Rattle.gem_language.specs.Commands.{Command, Reply, command_reply};
ghost use Rattle.gem_language.specs.Install.{with_method, install};
ghost use Rattle.gem_language.specs.ReadingCommands.{CommandComes, MethodSource, InstallComes};
ghost use Rattle.gem_language.specs.Transaction.{begin_command, command_outcome, transaction, after_both};

use crate::found::Found;
use object_programs::{Fault, SPACE_LIMIT};

/// Commands say the same and leave the same at two places that have the same at each name that was
/// touched, where every object of the one is in the other with the same fixed part.
pub fn frame()
    ensures { (commands : List Command) (setting : Setting) (world : World) (other : Image)
        → Stays setting.place other
        → AgreeOnTouched setting.place other (transaction commands setting world).world
        → transaction commands (rebased other setting) world ≡ transaction commands setting world }
{}

/// Whatever the commands are, sound objects stay sound, every fixed part stays, what is written,
/// made or updated is in reach, what was touched stays touched, and the updates tell what has
/// become of reduced-conflict objects. Names are drawn one after the other, at most 4,000,000 in a
/// command.
pub fn keeps()
    ensures sound { (commands : List Command) (setting : Setting) (world : World)
        → AreSound setting world → AreSound setting (transaction commands setting world).world }
    ensures fixed_parts { (commands : List Command) (setting : Setting) (world : World)
        → AreFree setting world → KeepsParts (fixed_by setting world)
        (fixed_by setting (transaction commands setting world).world) }
    ensures reach { (commands : List Command) (setting : Setting) (world : World)
        → IsInReach setting world
        → IsInReach setting (transaction commands setting world).world }
    ensures touches { (commands : List Command) (setting : Setting) (world : World) (name : ℕ)
        → IsTouched name world → IsTouched name (transaction commands setting world).world }
    ensures updates { (commands : List Command) (setting : Setting) (world : World)
        → UpdatesTell setting world
        → UpdatesTell setting (transaction commands setting world).world }
    ensures next { (commands : List Command) (setting : Setting) (world : World)
        → world.next ≤ (transaction commands setting world).world.next }
    ensures drawn { (commands : List Command) (setting : Setting) (world : World)
        → (transaction commands setting world).world.next
        ≤ world.next + SPACE_LIMIT * length commands }
{}

/// No command uses more than a whole budget: units and space only fall from there.
pub fn budgets_fall()
    ensures { (command : Command) (setting : Setting) (world : World)
        → let after = (command_outcome command setting world).state in
        Falls world whole_budget after.world after.budget }
{}

/// Commands go on where those before them ended: what a session's commands say and leave doesn't
/// depend on how many are looked at together.
pub fn goes_on()
    ensures { (first rest : List Command) (setting : Setting) (world : World)
        → transaction (first ++ rest) setting world
        ≡ after_both (transaction first setting world)
        (transaction rest setting (transaction first setting world).world) }
{}

/// A look-up that gives an answer gives what the relation `FindsFor` says of the objects that are
/// seen, and changes nothing but what was touched. There is at most one such answer.
pub fn look_up_finds()
    ensures found { (to_super : Bool) (frame : Frame) (receiver : Value) (selector : Text)
        (setting : Setting) (state : State MadeBlock) (found : Option Found)
        (after : State MadeBlock)
        → Comes (find_method to_super frame receiver selector) setting state (gives found) after
        → FindsFor (shown_objects setting state.world) frame to_super receiver selector found }
    ensures touches { (to_super : Bool) (frame : Frame) (receiver : Value) (selector : Text)
        (setting : Setting) (state : State MadeBlock) (found : Option Found)
        (after : State MadeBlock)
        → Comes (find_method to_super frame receiver selector) setting state (gives found) after
        → OnlyTouched state after }
    ensures one { (objects : Objects) (frame : Frame) (to_super : Bool) (receiver : Value)
        (selector : Text) (found other : Option Found)
        → FindsFor objects frame to_super receiver selector found
        → FindsFor objects frame to_super receiver selector other → found ≡ other }
{}

/// A send comes to what the relation `SendComes` says, and to nothing else: by cases on the unit,
/// on what the look-up finds, and on what the method is. A chunk is a method of the class of nil,
/// the object 3, with nil as its receiver; 1,999 activations more may begin in it.
pub fn reading_is_meaning()
    ensures comes { (depth : ℕ) (setting : Setting) (message : Sent) (state : State MadeBlock)
        → let outcome = perform (send_program depth message) setting state in
        SendComes depth setting message state outcome.end outcome.state }
    ensures only { (depth : ℕ) (setting : Setting) (message : Sent) (state : State MadeBlock)
        (end : Ending Value) (after : State MadeBlock)
        → SendComes depth setting message state end after
        → Comes (send_program depth message) setting state end after }
    ensures chunk { (tree : Program) (setting : Setting) (state : State MadeBlock)
        → perform (chunk_value tree) setting state
        ≡ perform (activation (chunk_body (outside 1999) tree) (length tree.temps) 3 false Nil [])
        setting state }
{}

/// A name that is no variable in scope stands for what the relations say: a global for what
/// `HasGlobal` says, in both directions, and a value of a name for what `HasValue` says. Without a
/// slot and a global of this name the answer is E2. An assignment that gives an answer assigns, as
/// `Assigns` says, and answers the value; without a slot it is E2, with no further access, and that
/// of a block is E12 after the write of the receiver.
pub fn names_are_read()
    ensures global { (setting : Setting) (name : Text) (state : State MadeBlock)
        (found : Option Value) (after : State MadeBlock)
        → Comes (find_global name) setting state (gives found) after
        → HasGlobal setting name state found after }
    ensures only_global { (setting : Setting) (name : Text) (state : State MadeBlock)
        (found : Option Value) (after : State MadeBlock)
        → HasGlobal setting name state found after
        → Comes (find_global name) setting state (gives found) after }
    ensures value { (setting : Setting) (name : Text) (frame : Frame) (state : State MadeBlock)
        (answer : Value) (after : State MadeBlock)
        → Comes (read_out_of_scope name frame) setting state (gives answer) after
        → HasValue setting name frame state answer after }
    ensures unknown { (setting : Setting) (name : Text) (frame : Frame) (names : List Text)
        (state between after : State MadeBlock)
        → Comes (instance_names frame.holder) setting state (gives names) between
        → slot_of frame.class_side name names ≡ None → HasGlobal setting name between None after
        → Comes (read_out_of_scope name frame) setting state
        (fails (Fault.UndefinedVariable name)) after }
    ensures assigned { (setting : Setting) (name : Text) (frame : Frame) (answer other : Value)
        (state after : State MadeBlock)
        → Comes (write_out_of_scope name frame answer) setting state (gives other) after
        → Assigns setting name frame answer state after × (other ≡ answer) }
    ensures not_assigned { (setting : Setting) (name : Text) (frame : Frame) (answer : Value)
        (names : List Text) (state between : State MadeBlock)
        → Comes (instance_names frame.holder) setting state (gives names) between
        → slot_of frame.class_side name names ≡ None
        → Comes (write_out_of_scope name frame answer) setting state
        (fails (Fault.UndefinedVariable name)) between }
    ensures block { (setting : Setting) (name : Text) (frame : Frame) (block : BlockRef)
        (names : List Text) (slot receiver : ℕ) (object : Contents)
        (state between after : State MadeBlock)
        → Comes (instance_names frame.holder) setting state (gives names) between
        → slot_of frame.class_side name names ≡ Some slot → frame.receiver ≡ Ref receiver
        → Writes setting receiver between object after
        → Comes (write_out_of_scope name frame (Block block)) setting state
        (fails Fault.BlockStored) after }
{}

/// A literal makes what the relation `HasLiteral` says: the objects of an array from left to right,
/// and inner ones before outer ones. Where a symbol in it is too long the answer is E17, and
/// nothing is made.
pub fn literals_are_read()
    ensures value { (setting : Setting) (tree : Constant) (state : State MadeBlock)
        (answer : Value) (after : State MadeBlock)
        → Comes (literal_value tree) setting state (gives answer) after
        → HasLiteral setting tree state answer after }
    ensures only { (setting : Setting) (tree : Constant) (state : State MadeBlock)
        (answer : Value) (after : State MadeBlock) → has_symbols tree ≡ true
        → HasLiteral setting tree state answer after
        → Comes (literal_value tree) setting state (gives answer) after }
    ensures long { (setting : Setting) (tree : Constant) (state : State MadeBlock)
        → HasLongSymbol tree
        → Comes (literal_value tree) setting state (fails Fault.ObjectTooLarge) state }
    ensures short { (tree : Constant) → has_symbols tree ≡ false → HasLongSymbol tree }
{}

/// A command comes to what the relation `CommandComes` says, and to nothing else: by cases on the
/// tree of its text, and on how its program ends.
pub fn commands_are_read()
    ensures comes { (command : Command) (setting : Setting) (world : World)
        → let outcome = command_outcome command setting world in
        CommandComes setting world command outcome.end outcome.state }
    ensures only { (command : Command) (setting : Setting) (world : World) (end : Ending Reply)
        (after : State MadeBlock) → CommandComes setting world command end after
        → Comes (command_reply command) setting (begin_command world) end after }
{}

/// The source of a method is put into a class as the relation `InstallComes` says, with its errors
/// in their order.
pub fn installs_are_read()
    ensures { (setting : Setting) (method : MethodSource) (state : State MadeBlock)
        (end : Ending (Unit {0})) (after : State MadeBlock)
        → InstallComes setting method state end after
        → Comes (install method.class_side method.class method.selector method.source) setting
        state end after }
{}

/// A class's methods with a new one: the selector of the new one does what the new one does, every
/// other selector does what it did, and methods that ascend by selector ascend still.
pub fn methods_are_put()
    ensures own { (new : Method) (methods : List Method)
        → code_of new.selector (with_method new methods) ≡ Some new.code }
    ensures others { (new : Method) (methods : List Method) (selector : Text)
        → bytes_eq new.selector selector ≡ false
        → code_of selector (with_method new methods) ≡ code_of selector methods }
    ensures ascending { (new : Method) (methods : List Method)
        → texts_ascend (map (λ method. method.selector) methods) ≡ true
        → texts_ascend (map (λ method. method.selector) (with_method new methods)) ≡ true }
{}

/// Where objects are sound, a look-up gives an answer or is refused a read, and so do the names of
/// instance variables of a class that is there: no chain of superclasses is too long.
pub fn walks_end()
    ensures look_up { (to_super : Bool) (frame : Frame) (receiver : Value) (selector : Text)
        (setting : Setting) (state : State MadeBlock) → AreSound setting state.world
        → IsAnswered (perform (find_method to_super frame receiver selector) setting state).end }
    ensures names { (class : ℕ) (setting : Setting) (state : State MadeBlock)
        → AreSound setting state.world
        → IsAnswered (perform (instance_names class) setting state).end }
{}
