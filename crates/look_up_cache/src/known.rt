//! Objects that remember look-ups.
ghost use Rattle.std.specs.Prelude.{◌≡◌, true, false, [], ◌∷◌, Ok, None, IfSome, option_copied, codes};
ghost use Rattle.gem_object.specs.Edits.{with_slot};
ghost use Rattle.running_objects.specs.object_programs.Atom.{Tick};
ghost use Rattle.running_objects.specs.object_programs.Budget.{Budget};
ghost use Rattle.running_objects.specs.object_programs.Run.{give, atom, and_then};
ghost use Rattle.running_objects.specs.Acted.{Acted, with_answer};
ghost use Rattle.gem_language.specs.prim_rules.Rules.{rule_of};
ghost use Rattle.gem_language.specs.prim_rules.declared.answer.PrimitiveAnswer.TheVariants.{Gives};
ghost use Rattle.gem_language.specs.tree_meaning.Names.{index_of};
ghost use Rattle.gem_language.specs.LookUp.{find_method};
ghost use Rattle.gem_language.specs.OutOfScope.{instance_names, slot_of, read_out_of_scope, write_out_of_scope};
ghost use Rattle.prim_parts.specs.Does.{Does, IsThere};
ghost use Rattle.prim_parts.specs.Edits.{Replaces};
ghost use Rattle.look_up_cache.specs.Table.{held_at};
ghost use Rattle.look_up_cache.specs.Variables.{Stands, bare_frame, SlotIsLeft};
ghost use Rattle.look_up_cache.specs.Memory.{FindsFor, Met, told_by, with_budget};
ghost use Rattle.look_up_cache.specs.Answering.{AnswersBy};
ghost use Rattle.look_up_cache.specs.Operators.{IntegersAnswer};
ghost use Rattle.look_up_cache.specs.Lacking.{LacksAtMost};
ghost use Rattle.look_up_cache.specs.Elements.{AlwaysGives, ended_by, PutIsLeft, UnitAndPut};

use crate::counts::remember_count;
use crate::element_message::{ElementMessage, remember_element};
use crate::elements::{Put, Slot, element_put, known_answer, known_element, known_put};
use crate::finding::{keep_at, known_place, remember, renew};
use crate::kept::MethodCodeKept;
use crate::memory::Memory;
use crate::operator::{IntegerOperator, is_answered, remember_operator};
use crate::table::held_at;
use crate::variables::{copy_of, known_index, known_variable, remember_variable, slot_to_set};
use gem_language::Found;
use gem_object::{Oid, Text, Value};
use prim_parts::replace_slot;
use running_objects::{Objects, Stop};
use st_locals::Frame;
use st_outside::{assign_name, value_of_name, variable_index};
use std::alloc::Global;
use std::marker::Model;
use std::mem;

/// Objects of a running transaction that remember look-ups. Contracts see the objects, and what was
/// found, by places.
#[derive(Drop)]
pub struct KnownObjects<O: Objects, T: MethodCodeKept> {
    pub(crate) objects: O,
    pub(crate) memory: Memory<T>,
    // Where it is false all that is remembered is forgotten before the next look-up.
    pub(crate) holds: bool,
}

impl<O: Objects, T: MethodCodeKept> Model for KnownObjects<O, T> {
    ghost use Rattle.std.specs.Prelude.{List, Option};
    ghost use Rattle.gem_language.specs.declared.found.Found.{Found};
    ghost use Rattle.look_up_cache.specs.Memory.{founds, IsKnown};

    ghost Value = { O × List (Option Found) };

    ghost view = { λ known. (known.objects, founds known.memory.methods.items) };

    ghost invariant = { λ known. IsKnown T.is_of known.holds known.memory (O.seen known.objects) };
}

impl<O: Objects, T: MethodCodeKept> KnownObjects<O, T> {
    /// Objects of which nothing is remembered yet. Takes no memory.
    pub fn new(alloc: Global, objects: O) -> KnownObjects<O, T>
        ensures { result.0 ≡ objects }
    {
        let memory = Memory::empty(alloc);
        KnownObjects {
            objects,
            memory,
            holds: false,
        }
    }

    /// The objects.
    pub fn objects(&self) -> &O
        ensures { result.now ≡ self.now.0 }
    {
        &self.objects
    }

    /// Goes on with these objects in place of those before, which it gives back, and of which nothing
    /// is remembered any more. The room for what is remembered stays. It takes no memory.
    pub fn go_on(&mut self, objects: O) -> O
        ensures objects { self.new.0 ≡ objects }
        ensures before { result ≡ self.old.0 }
    {
        self.holds = false;
        mem::replace(&mut self.objects, objects)
    }

    /// The objects, without what was remembered.
    pub fn into_objects(self) -> O
        ensures { result ≡ self.0 }
    {
        let KnownObjects { objects, .. } = self;
        objects
    }

    /// Looks up which method answers a message with this selector to the receiver, and tells the
    /// place at which what was found stands until the next call. What was found before, and can't
    /// have changed, is found without memory; for an object that is new to it, after a read.
    pub fn find_method(
        &mut self,
        frame: &Frame,
        receiver: &Value,
        selector: &Text,
    ) -> Result<usize, Stop>
        ensures { Does (find_method false frame.now receiver.now selector.now) (O.seen self.old.0)
            (told_by self.new.1 result) (O.seen self.new.0) }
    {
        if let Some(at) = self.known_place(receiver, selector) {
            return Ok(at);
        }
        self.meet(receiver)?;
        match self.known_place(receiver, selector) {
            Some(at) => Ok(at),
            None => self.look_up(frame, receiver, selector),
        }
    }

    /// The place at which what a look-up finds stands, where that is known without a look at any
    /// object, whatever the budget is. It takes no memory.
    pub fn known_method(&self, frame: &Frame, receiver: &Value, selector: &Text) -> Option<usize>
        ensures { IfSome result (λ at. (budget : Budget)
            → Does (find_method false frame.now receiver.now selector.now)
            (with_budget budget (O.seen self.now.0)) (Ok (held_at self.now.1 at))
            (with_budget budget (O.seen self.now.0))) }
    {
        let at = self.known_place(receiver, selector)?;
        Some(at)
    }

    /// Whether it is known, without a look at any object, that integers answer this operator by the
    /// primitive of its number. It takes no memory.
    #[inline(always)]
    pub fn answers_integers(&self, operator: IntegerOperator) -> bool
        ensures { result ≡ true → IntegersAnswer operator (O.seen self.now.0) }
    {
        self.holds && is_answered(&self.memory.operators, operator)
    }

    /// What the primitive of this number answers, where that is known without a change of anything,
    /// whatever the budget is: the size (33) and an element (34) of a sequence that is read so. None
    /// doesn't say that there is no answer. It takes no memory but for the text of a symbol, and
    /// without that it is None.
    pub fn known_answer(&self, number: u8, receiver: &Value, arguments: &[Value]) -> Option<Value>
        ensures { IfSome result (λ value. AlwaysGives
            (rule_of number receiver.now arguments.now) (Gives value) (O.seen self.now.0)) }
    {
        if self.holds {
            known_answer(&self.memory, &self.objects, number, receiver, arguments)
        } else {
            None
        }
    }

    /// Takes a unit, and then does what the primitive of this number does: a value comes into a
    /// sequence (35), where the receiver is known to be written and each test of the rule passes but
    /// that of its size. An error is E13, and then nothing else was done, or E17. None doesn't say
    /// that it would fail; then nothing is done, and no unit taken. It takes no memory but for the
    /// text of a symbol, and without that it is None.
    pub fn do_known(
        &mut self,
        number: u8,
        receiver: &Value,
        arguments: &[Value],
    ) -> Option<Result<Value, Stop>>
        ensures done { IfSome result (λ ended. Does (and_then (atom Tick)
            (λ unit. rule_of number receiver.now arguments.now)) (O.seen self.old.0)
            (ended_by ended) (O.seen self.new.0)) }
        ensures lacks { IfSome result LacksAtMost }
        ensures unchanged { result ≡ None → self.new ≡ self.old }
        ensures founds { self.new.1 ≡ self.old.1 }
    {
        let put = self.element_put(number, receiver, arguments)?;
        let answer = copy_of(&put.value)?;
        Some(with_answer(self.put_after_unit(put), answer))
    }

    /// What `at:` with this index answers, where it is known from the receiver alone that a look-up
    /// finds primitive 34 for it, and what that gives, without a change of anything and whatever the
    /// budget is. None doesn't say that there is no answer. It takes no memory but for the text of a
    /// symbol, and without that it is None.
    #[inline(always)]
    pub fn known_element(&self, receiver: &Value, index: &Value) -> Option<Value>
        ensures answers { IfSome result (λ _.
            AnswersBy 34 receiver.now (codes "at:") (O.seen self.now.0)) }
        ensures value { IfSome result (λ value. AlwaysGives
            (rule_of 34 receiver.now (index.now ∷ [])) (Gives value) (O.seen self.now.0)) }
    {
        if self.holds {
            known_element(&self.memory, &self.objects, receiver, index)
        } else {
            None
        }
    }

    /// Takes a unit, and then puts a value into a sequence as `at:put:` (35) does, where it is known
    /// from the receiver alone that a look-up finds that primitive for it, that the receiver is
    /// written, and that each test of the rule passes but that of its size. An error is E13, and then
    /// nothing else was done, or E17; else the value is the answer. None doesn't say that it would
    /// fail; then nothing is done, and no unit taken. It takes no memory but for the text of a symbol,
    /// and without that it is None.
    #[inline(always)]
    pub fn do_known_put(
        &mut self,
        receiver: &Value,
        index: &Value,
        value: &Value,
    ) -> Option<Result<(), Stop>>
        ensures answers { IfSome result (λ _.
            AnswersBy 35 receiver.now (codes "at:put:") (O.seen self.old.0)) }
        ensures done { IfSome result (λ ended. Does (and_then (atom Tick)
            (λ unit. rule_of 35 receiver.now (index.now ∷ value.now ∷ []))) (O.seen self.old.0)
            (ended_by (with_answer value.now ended)) (O.seen self.new.0)) }
        ensures lacks { IfSome result LacksAtMost }
        ensures unchanged { result ≡ None → self.new ≡ self.old }
        ensures founds { self.new.1 ≡ self.old.1 }
    {
        let put = self.known_put(receiver, index, value)?;
        Some(self.put_after_unit(put))
    }

    // What is left to do of `at:put:`, where that is known from the receiver alone.
    #[inline(always)]
    fn known_put(&self, receiver: &Value, index: &Value, value: &Value) -> Option<Put>
        ensures answers { IfSome result (λ _.
            AnswersBy 35 receiver.now (codes "at:put:") (O.seen self.now.0)) }
        ensures left { IfSome result (λ put. PutIsLeft
            (rule_of 35 receiver.now (index.now ∷ value.now ∷ [])) put (O.seen self.now.0)) }
        ensures value { IfSome result (λ put. put.value ≡ value.now) }
        ensures there { IfSome result (λ put. IsThere put.slot.name (O.seen self.now.0)) }
    {
        if self.holds {
            known_put(&self.memory, &self.objects, receiver, index, value)
        } else {
            None
        }
    }

    /// Remembers with the receiver that this message, which a look-up told at this place, is answered
    /// by the primitive of elements, if it is. It takes no memory.
    pub fn keep_element(&mut self, receiver: &Value, message: ElementMessage, at: usize)
        ensures { self.new ≡ self.old }
    {
        if self.holds {
            remember_element(&mut self.memory, receiver, message, at);
        }
    }

    /// The value of an instance variable, where that is known without a change of anything,
    /// whatever the budget is: for a method of this class and side, where the slot of this name is
    /// remembered and the receiver is known to be read. None doesn't say that there is no such
    /// variable. It takes no memory but for the text of a symbol, and without that it is None.
    #[inline(always)]
    pub fn known_variable(
        &self,
        name: &Text,
        receiver: &Value,
        holder: Oid,
        class_side: bool,
    ) -> Option<Value>
        ensures { IfSome result (λ value. AlwaysGives
            (read_out_of_scope name.now (bare_frame receiver.now holder class_side)) value
            (O.seen self.now.0)) }
    {
        if self.holds {
            known_variable(
                &self.memory,
                &self.objects,
                name,
                receiver,
                holder,
                class_side,
            )
        } else {
            None
        }
    }

    /// Puts a copy of a value into an instance variable, as an assignment does in a method of this
    /// class and side, where the slot of this name is remembered, the receiver is known to be
    /// written, and the value is no block. An error is E17. None doesn't say that it would fail; then
    /// nothing is done. It takes no memory but for the text of a symbol, and without that it is None.
    #[inline(always)]
    pub fn set_known_variable(
        &mut self,
        name: &Text,
        receiver: &Value,
        holder: Oid,
        class_side: bool,
        value: &Value,
    ) -> Option<Result<(), Stop>>
        ensures done { IfSome result (λ ended. Does (write_out_of_scope name.now
            (bare_frame receiver.now holder class_side) value.now) (O.seen self.old.0)
            (with_answer value.now ended) (O.seen self.new.0)) }
        ensures lacks { IfSome result LacksAtMost }
        ensures unchanged { result ≡ None → self.new ≡ self.old }
        ensures founds { self.new.1 ≡ self.old.1 }
    {
        let slot = self.slot_to_set(name, receiver, holder, class_side, value)?;
        let copy = copy_of(value)?;
        Some(self.put_in_slot(slot, copy))
    }

    // The slot into which an assignment puts this value.
    #[inline(always)]
    fn slot_to_set(
        &self,
        name: &Text,
        receiver: &Value,
        holder: Oid,
        class_side: bool,
        value: &Value,
    ) -> Option<Slot>
        ensures left { IfSome result (λ slot. SlotIsLeft name.now
            (bare_frame receiver.now holder class_side) value.now slot (O.seen self.now.0)) }
        ensures there { IfSome result (λ slot. IsThere slot.name (O.seen self.now.0)) }
    {
        if self.holds {
            slot_to_set(
                &self.memory,
                &self.objects,
                name,
                receiver,
                holder,
                class_side,
                value,
            )
        } else {
            None
        }
    }

    /// The value of a name that is no variable in scope, as `read_name` of `st_outside` gives it.
    /// The slot of an instance variable is looked for once and then known, and so is that there is
    /// none.
    pub fn read_name(&mut self, frame: &Frame, name: &Text) -> Result<Value, Stop>
        ensures { Does (read_out_of_scope name.now frame.now) (O.seen self.old.0) result
            (O.seen self.new.0) }
    {
        let slot = self.slot_of(frame, name)?;
        value_of_name(self, name, frame, slot)
    }

    /// An assignment to such a name, as `write_name` of `st_outside` does it, with the same that is
    /// known.
    pub fn write_name(&mut self, frame: &Frame, name: &Text, value: Value) -> Result<Value, Stop>
        ensures { Does (write_out_of_scope name.now frame.now value) (O.seen self.old.0) result
            (O.seen self.new.0) }
    {
        let slot = self.slot_of(frame, name)?;
        assign_name(self, name, frame, slot, value)
    }

    // The slot of the instance variable of this name; none in a method of the class side.
    fn slot_of(&mut self, frame: &Frame, name: &Text) -> Result<Option<usize>, Stop>
        ensures { Does (and_then (instance_names frame.now.holder)
            (λ names. give (slot_of frame.now.class_side name.now names))) (O.seen self.old.0)
            result (O.seen self.new.0) }
    {
        let found = self.variable_index(frame.holder(), name)?;
        if frame.class_side() {
            return Ok(None);
        }
        Ok(found)
    }

    // In which slot the instance variable of this name of a class stands.
    fn variable_index(&mut self, holder: Oid, name: &Text) -> Result<Option<usize>, Stop>
        ensures { Does (and_then (instance_names holder)
            (λ names. give (index_of name.now names))) (O.seen self.old.0) result
            (O.seen self.new.0) }
    {
        match self.known_index(holder, name) {
            Some(found) => Ok(found),
            None => self.look_for(holder, name),
        }
    }

    // The same, where it is remembered.
    fn known_index(&self, holder: Oid, name: &Text) -> Option<Option<usize>>
        ensures { IfSome result (λ found. Stands holder name.now found
            (O.seen self.now.0).setting (O.seen self.now.0).world) }
    {
        if self.holds {
            known_index(&self.memory, holder, name)
        } else {
            None
        }
    }

    // Looks for it, and remembers it.
    fn look_for(&mut self, holder: Oid, name: &Text) -> Result<Option<usize>, Stop>
        ensures { Does (and_then (instance_names holder)
            (λ names. give (index_of name.now names))) (O.seen self.old.0) result
            (O.seen self.new.0) }
    {
        renew(&mut self.memory, self.holds);
        self.holds = false;
        let found = variable_index(&mut self.objects, holder, name)?;
        remember_variable(&mut self.memory, holder, name, found);
        self.holds = true;
        Ok(found)
    }

    // What is left to do of a primitive that puts a value into a slot.
    fn element_put(&self, number: u8, receiver: &Value, arguments: &[Value]) -> Option<Put>
        ensures left { IfSome result (λ put. PutIsLeft
            (rule_of number receiver.now arguments.now) put (O.seen self.now.0)) }
        ensures there { IfSome result (λ put. IsThere put.slot.name (O.seen self.now.0)) }
    {
        if self.holds {
            element_put(&self.memory, &self.objects, number, receiver, arguments)
        } else {
            None
        }
    }

    // Takes a unit, and then does what is left.
    #[inline(always)]
    fn put_after_unit(&mut self, put: Put) -> Result<(), Stop>
        requires { IsThere put.slot.name (O.seen self.old.0) }
        ensures put { UnitAndPut put (O.seen self.old.0) result (O.seen self.new.0) }
        ensures lacks { LacksAtMost result }
        ensures founds { self.new.1 ≡ self.old.1 }
    {
        self.take_unit()?;
        self.put_in_slot(put.slot, put.value)
    }

    /// Takes a unit, and keeps what is remembered.
    pub(crate) fn take_unit(&mut self) -> Result<(), Stop>
        ensures unit { Acted Tick (O.seen self.old.0) result (O.seen self.new.0) }
        ensures lacks { LacksAtMost result }
        ensures founds { self.new.1 ≡ self.old.1 }
    {
        match self.objects.tick() {
            Ok(()) => Ok(()),
            Err(stop) => {
                self.holds = false;
                Err(stop)
            }
        }
    }

    // Puts a value in a slot of an object that was written, and keeps what is remembered.
    #[inline(always)]
    fn put_in_slot(&mut self, slot: Slot, value: Value) -> Result<(), Stop>
        requires { IsThere slot.name (O.seen self.old.0) }
        ensures put { Replaces (λ body. 0) slot.name (with_slot slot.at value)
            (O.seen self.old.0) result (O.seen self.new.0) }
        ensures lacks { LacksAtMost result }
        ensures founds { self.new.1 ≡ self.old.1 }
    {
        match self.objects.set_slot_within(slot.name, slot.at, value) {
            Ok(()) => Ok(()),
            Err(value) => self.replace_in_slot(slot, value),
        }
    }

    // The same by more than one look, which tells what fails.
    #[inline(never)]
    fn replace_in_slot(&mut self, slot: Slot, value: Value) -> Result<(), Stop>
        requires { IsThere slot.name (O.seen self.old.0) }
        ensures put { Replaces (λ body. 0) slot.name (with_slot slot.at value)
            (O.seen self.old.0) result (O.seen self.new.0) }
        ensures lacks { LacksAtMost result }
        ensures founds { self.new.1 ≡ self.old.1 }
    {
        match replace_slot(&mut self.objects, slot.name, slot.at, value) {
            Ok(()) => Ok(()),
            Err(stop) => {
                self.holds = false;
                Err(stop)
            }
        }
    }

    // Reads the receiver, if it is an object. Where what is remembered holds, the object is
    // remembered by that, and with it where look-ups for it begin.
    fn meet(&mut self, receiver: &Value) -> Result<(), Stop>
        ensures { Met receiver.now (O.seen self.old.0) result (O.seen self.new.0) }
    {
        match receiver {
            Value::Ref(name) => self.read(*name),
            _ => Ok(()),
        }
    }

    // The place of what is known to be found.
    #[inline(always)]
    fn known_place(&self, receiver: &Value, selector: &Text) -> Option<usize>
        ensures { IfSome result (λ at.
            FindsFor receiver.now selector.now (held_at self.now.1 at) (O.seen self.now.0)) }
    {
        if self.holds {
            known_place(&self.memory, receiver, selector)
        } else {
            None
        }
    }

    // Looks it up, and remembers it.
    fn look_up(&mut self, frame: &Frame, receiver: &Value, selector: &Text) -> Result<usize, Stop>
        ensures { Does (find_method false frame.now receiver.now selector.now) (O.seen self.old.0)
            (told_by self.new.1 result) (O.seen self.new.0) }
    {
        renew(&mut self.memory, self.holds);
        self.holds = false;
        let found = st_outside::find_method(&mut self.objects, false, frame, receiver, selector)?;
        let at = remember(&mut self.memory, &self.objects, receiver, selector, found)?;
        remember_count(&mut self.memory, &self.objects, receiver, at);
        remember_operator(&mut self.memory, receiver, selector, at);
        self.holds = true;
        Ok(at)
    }

    /// What stands at a place: the method that was found there. It takes no memory.
    pub fn found(&self, at: usize) -> Option<&Found>
        ensures { option_copied result ≡ held_at self.now.1 at }
    {
        held_at(&self.memory.methods, at)?.found.as_ref()
    }

    /// What is kept beside the method that stands at a place. It takes no memory.
    pub fn code(&self, at: usize) -> Option<&T>
        ensures { IfSome result (λ code.
            IfSome (held_at self.now.1 at) (λ found. T.is_of code.now found.code)) }
    {
        held_at(&self.memory.methods, at)?.code.as_ref()
    }

    /// Keeps this beside the method that stands at a place, whose it is. Where nothing stands there
    /// nothing is kept. It takes no memory.
    pub fn keep_code(&mut self, at: usize, code: T)
        requires { IfSome (held_at self.old.1 at) (λ found. T.is_of code found.code) }
        ensures { self.new ≡ self.old }
    {
        keep_at(&mut self.memory.methods, at, code);
    }
}

// How what answers this value ends, where it ended so.
fn with_answer(ended: Result<(), Stop>, answer: Value) -> Result<Value, Stop>
    ensures { result ≡ with_answer answer ended }
{
    match ended {
        Ok(()) => Ok(answer),
        Err(stop) => Err(stop),
    }
}
