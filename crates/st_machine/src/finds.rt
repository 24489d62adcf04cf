//! Objects that remember which methods answer which messages, and what is known to be done to them.
ghost use Rattle.std.specs.Prelude.{◌≡◌, ◌∷◌, [], codes, false, true, List, Option, None, Ok, IfSome, option_copied};
ghost use Rattle.tree_meaning.specs.object_programs.Budget.{Budget};
ghost use Rattle.gem_language.specs.declared.found.Found.{Found as AFound};
ghost use Rattle.gem_language.specs.LookUp.{find_method};
ghost use Rattle.gem_language.specs.OutOfScope.{read_out_of_scope, write_out_of_scope};
ghost use Rattle.prim_parts.specs.Does.{Does};
ghost use Rattle.look_up_cache.specs.Answering.{AnswersBy};
ghost use Rattle.look_up_cache.specs.Operators.{IntegersAnswer};
ghost use Rattle.look_up_cache.specs.Table.{held_at};
ghost use Rattle.look_up_cache.specs.Memory.{told_by, with_budget};
ghost use Rattle.look_up_cache.specs.Lacking.{LacksAtMost};
ghost use Rattle.st_machine.specs.AtOnce.{IsReady, StandsFor, with_unit, giving, answering, assigning};
ghost use Rattle.st_machine.specs.Lacks.{stopped_by};
ghost use Rattle.st_machine.specs.Methods.{IsCodeOf};
ghost use Rattle.look_up_cache.specs.Variables.{bare_frame};

use crate::lack::Lack;
use crate::shared_code::SharedCode;
use gem_language::Found;
use gem_object::{Oid, Text, Value};
use look_up_cache::{ElementMessage, IntegerOperator, KnownObjects, MethodCodeKept};
use running_objects::{Fault, Objects, Stop};
use st_locals::Frame;

/// Objects of which it is remembered which methods answer which messages, with the code of these.
pub trait FindsMethods: Objects {
    /// What was found, by the places at which it stands.
    ghost founds: { Self → List (Option AFound) };

    /// Looks up which method answers a message with this selector to the receiver, and tells the
    /// place at which what was found stands until the next call.
    fn find_method(
        &mut self,
        frame: &Frame,
        receiver: &Value,
        selector: &Text,
    ) -> Result<usize, Stop>
        ensures { Does (find_method false frame.now receiver.now selector.now)
            (Self.seen self.old) (told_by (founds self.new) result) (Self.seen self.new) };

    /// The place at which what such a look-up finds stands until the next call, where that is
    /// known without a look at any object, whatever the budget is. It takes no memory.
    fn known_method(&self, frame: &Frame, receiver: &Value, selector: &Text) -> Option<usize>
        ensures { IfSome result (λ at. (budget : Budget)
            → Does (find_method false frame.now receiver.now selector.now)
            (with_budget budget (Self.seen self.now)) (Ok (held_at (founds self.now) at))
            (with_budget budget (Self.seen self.now))) };

    /// The method that was found and stands at a place. It takes no memory.
    fn found(&self, at: usize) -> Option<&Found>
        ensures { option_copied result ≡ held_at (founds self.now) at };

    /// The code of the method that stands at a place, where it is kept. It takes no memory.
    fn code(&self, at: usize) -> Option<&SharedCode>
        ensures { IfSome result (λ code.
            IfSome (held_at (founds self.now) at) (λ found. IsCodeOf code.now found.code)) };

    /// Whether it is known that integers answer this operator by its primitive, whatever the budget
    /// is. It takes no memory. Of false the contract says nothing.
    fn answers_integers(&self, operator: IntegerOperator) -> bool
        ensures { result ≡ true → IntegersAnswer operator (Self.seen self.now) };

    /// Keeps the code of the method that stands at a place. It takes no memory.
    fn keep_code(&mut self, at: usize, code: SharedCode)
        requires { IfSome (held_at (founds self.old) at) (λ found. IsCodeOf code found.code) }
        ensures { self.new ≡ self.old };

    /// The answer of the primitive of this number, where it is known without a look at any object,
    /// whatever the budget is, and the primitive changes nothing. It takes no memory, but for the
    /// copy of a symbol. Of None the contract says nothing.
    fn known_answer(&self, number: u8, receiver: &Value, arguments: &[Value]) -> Option<Value>
        ensures { IfSome result (λ value.
            IsReady number receiver.now arguments.now (Self.seen self.now) value) };

    /// Takes the unit of a message and does the primitive of this number, where it is known that
    /// this gives a value, if nothing is lacking for it. Of None the contract says only that
    /// nothing has changed, with no unit taken.
    fn do_known(
        &mut self,
        number: u8,
        receiver: &Value,
        arguments: &[Value],
    ) -> Option<Result<Value, Lack>>
        ensures done { IfSome result (λ ended. Does (with_unit number receiver.now arguments.now)
            (Self.seen self.old) (giving ended) (Self.seen self.new)) }
        ensures unchanged { result ≡ None → self.new ≡ self.old }
        ensures founds { founds self.new ≡ founds self.old };

    /// What `at:` with this index answers, where it is known from the receiver alone, without a look
    /// at any other object and whatever the budget is, that the primitive of that message answers it,
    /// and with what. It takes no memory, but for the copy of a symbol. Of None the contract says
    /// nothing.
    fn known_element(&self, receiver: &Value, index: &Value) -> Option<Value>
        ensures answers { IfSome result (λ _.
            AnswersBy 34 receiver.now (codes "at:") (Self.seen self.now)) }
        ensures ready { IfSome result (λ value.
            IsReady 34 receiver.now (index.now ∷ []) (Self.seen self.now) value) };

    /// Takes the unit of `at:put:` and does that, where it is known from the receiver alone that its
    /// primitive answers it, and that this gives the value, if nothing is lacking for it. Of None the
    /// contract says only that nothing has changed, with no unit taken.
    fn do_known_put(
        &mut self,
        receiver: &Value,
        index: &Value,
        value: &Value,
    ) -> Option<Result<(), Lack>>
        ensures answers { IfSome result (λ _.
            AnswersBy 35 receiver.now (codes "at:put:") (Self.seen self.old)) }
        ensures done { IfSome result (λ ended. Does
            (with_unit 35 receiver.now (index.now ∷ value.now ∷ [])) (Self.seen self.old)
            (giving (answering value.now ended)) (Self.seen self.new)) }
        ensures unchanged { result ≡ None → self.new ≡ self.old }
        ensures founds { founds self.new ≡ founds self.old };

    /// Remembers with the receiver that this message, which a look-up told at this place, is answered
    /// by the primitive of elements, where that is so. It takes no memory.
    fn keep_element(&mut self, receiver: &Value, message: ElementMessage, at: usize)
        ensures { self.new ≡ self.old };

    /// The value of a name that is no variable in scope, in a method with this receiver that this
    /// class holds, on its class side or not: where it is known without a look at any object,
    /// whatever the budget is. It takes no memory, but for the copy of a symbol. Of None the
    /// contract says nothing.
    fn known_variable(
        &self,
        name: &Text,
        receiver: &Value,
        holder: Oid,
        class_side: bool,
    ) -> Option<Value>
        ensures { IfSome result (λ value. StandsFor name.now
            (bare_frame receiver.now holder class_side) (Self.seen self.now) value) };

    /// An assignment to such a name, where it is known that it ends well, if nothing is lacking for
    /// it. Of None the contract says only that nothing has changed.
    fn set_known_variable(
        &mut self,
        name: &Text,
        receiver: &Value,
        holder: Oid,
        class_side: bool,
        value: &Value,
    ) -> Option<Result<(), Lack>>
        ensures done { IfSome result (λ ended. Does (write_out_of_scope name.now
            (bare_frame receiver.now holder class_side) value.now) (Self.seen self.old)
            (assigning value.now ended) (Self.seen self.new)) }
        ensures unchanged { result ≡ None → self.new ≡ self.old }
        ensures founds { founds self.new ≡ founds self.old };

    /// The value of a name that is no variable in scope; E2 where there is none, E10 where the user
    /// may not read it.
    fn read_name(&mut self, frame: &Frame, name: &Text) -> Result<Value, Stop>
        ensures { Does (read_out_of_scope name.now frame.now) (Self.seen self.old) result
            (Self.seen self.new) };

    /// An assignment to such a name, which answers the value; E2 where it is no instance variable,
    /// E11 where the user may not write the receiver, and E12 of a block.
    fn write_name(&mut self, frame: &Frame, name: &Text, value: Value) -> Result<Value, Stop>
        ensures { Does (write_out_of_scope name.now frame.now value) (Self.seen self.old) result
            (Self.seen self.new) };
}

impl MethodCodeKept for SharedCode {
    ghost is_of = { IsCodeOf };
}

impl<O: Objects> FindsMethods for KnownObjects<O, SharedCode> {
    ghost founds = { λ known. known.1 };

    fn find_method(
        &mut self,
        frame: &Frame,
        receiver: &Value,
        selector: &Text,
    ) -> Result<usize, Stop> {
        KnownObjects::find_method(self, frame, receiver, selector)
    }

    fn known_method(&self, frame: &Frame, receiver: &Value, selector: &Text) -> Option<usize> {
        KnownObjects::known_method(self, frame, receiver, selector)
    }

    fn found(&self, at: usize) -> Option<&Found> {
        KnownObjects::found(self, at)
    }

    fn code(&self, at: usize) -> Option<&SharedCode> {
        KnownObjects::code(self, at)
    }

    #[inline(always)]
    fn answers_integers(&self, operator: IntegerOperator) -> bool {
        KnownObjects::answers_integers(self, operator)
    }

    fn keep_code(&mut self, at: usize, code: SharedCode) {
        KnownObjects::keep_code(self, at, code);
    }

    fn known_answer(&self, number: u8, receiver: &Value, arguments: &[Value]) -> Option<Value> {
        KnownObjects::known_answer(self, number, receiver, arguments)
    }

    fn do_known(
        &mut self,
        number: u8,
        receiver: &Value,
        arguments: &[Value],
    ) -> Option<Result<Value, Lack>> {
        let ended = KnownObjects::do_known(self, number, receiver, arguments)?;
        Some(lacking(ended))
    }

    #[inline(always)]
    fn known_element(&self, receiver: &Value, index: &Value) -> Option<Value> {
        KnownObjects::known_element(self, receiver, index)
    }

    #[inline(always)]
    fn do_known_put(
        &mut self,
        receiver: &Value,
        index: &Value,
        value: &Value,
    ) -> Option<Result<(), Lack>> {
        let ended = KnownObjects::do_known_put(self, receiver, index, value)?;
        Some(lacking(ended))
    }

    fn keep_element(&mut self, receiver: &Value, message: ElementMessage, at: usize) {
        KnownObjects::keep_element(self, receiver, message, at);
    }

    #[inline(always)]
    fn known_variable(
        &self,
        name: &Text,
        receiver: &Value,
        holder: Oid,
        class_side: bool,
    ) -> Option<Value> {
        KnownObjects::known_variable(self, name, receiver, holder, class_side)
    }

    fn set_known_variable(
        &mut self,
        name: &Text,
        receiver: &Value,
        holder: Oid,
        class_side: bool,
        value: &Value,
    ) -> Option<Result<(), Lack>> {
        let ended = KnownObjects::set_known_variable(
            self, name, receiver, holder, class_side, value,
        )?;
        Some(lacking(ended))
    }

    fn read_name(&mut self, frame: &Frame, name: &Text) -> Result<Value, Stop> {
        KnownObjects::read_name(self, frame, name)
    }

    fn write_name(&mut self, frame: &Frame, name: &Text, value: Value) -> Result<Value, Stop> {
        KnownObjects::write_name(self, frame, name, value)
    }
}

// What is lacking, where something is.
fn lacking<A: Drop>(ended: Result<A, Stop>) -> Result<A, Lack>
    requires { LacksAtMost ended }
    ensures { stopped_by result ≡ ended }
{
    match ended {
        Ok(answer) => Ok(answer),
        Err(Stop::Fails(Fault::SendBudget)) => Err(Lack::Unit),
        Err(Stop::Fails(Fault::ObjectTooLarge)) => Err(Lack::Room),
        Err(Stop::NoMemory) => Err(Lack::Memory),
        Err(_) => unreachable!(),
    }
}
