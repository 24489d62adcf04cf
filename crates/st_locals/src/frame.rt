//! Frames.
ghost use Rattle.std.specs.Prelude.{◌≡◌, ◌++◌, ◌∷◌, [], get_or, reverse, IfOk};
ghost use Rattle.tree_meaning.specs.Scopes.{no_mark, scope_number, with_scope};
ghost use Rattle.tree_meaning.specs.Calls.{method_frame};

use crate::locals::Locals;
use gem_object::{Oid, Value};
use std::alloc::{AllocError, Global};
use std::marker::Model;
use tree_meaning::Mark;

/// What an activation knows while it runs: its scopes, each by what stood when it was opened, the
/// receiver, the number of the activation from which `^` answers, the class that holds the method,
/// and whether the method is one of its class side. Contracts see the scopes with the innermost one
/// first.
#[derive(Drop)]
pub struct Frame {
    scopes: Vec<Mark>,
    receiver: Value,
    home: u64,
    holder: Oid,
    class_side: bool,
}

impl Model for Frame {
    ghost use Rattle.std.specs.Prelude.{reverse};
    ghost use Rattle.gem_object.specs.contracts.value.Value as value;
    ghost use Rattle.tree_meaning.specs.contracts.place.Mark as mark;
    ghost use Rattle.tree_meaning.specs.Place.{Frame as TreeFrame};
    ghost use Rattle.st_locals.specs.Codes.{frame_code};

    ghost Value = { TreeFrame };

    ghost coded = { frame_code value.the_row.coded mark.the_row.coded };

    ghost view = { λ frame. record {
      scopes = reverse frame.scopes.items;
      receiver = frame.receiver;
      home = frame.home;
      holder = frame.holder;
      class_side = frame.class_side;
    } };
}

impl Frame {
    /// The frame inside a scope that is opened when so much stands.
    pub fn with_scope(&self, mark: Mark) -> Result<Frame, AllocError>
        ensures { IfOk result (λ frame. frame ≡ with_scope mark self.now) }
    {
        Ok(Frame {
            scopes: one_more(&self.scopes, mark)?,
            receiver: self.receiver.clone()?,
            home: self.home,
            holder: self.holder,
            class_side: self.class_side,
        })
    }

    /// The number of the scope at a depth, which counts the scopes between, from 0. 0 where there
    /// are not so many.
    pub fn scope_number(&self, depth: usize) -> u64
        ensures { result ≡ scope_number self.now depth }
    {
        number_at(&self.scopes, depth)
    }

    /// What `self` is.
    pub fn receiver(&self) -> &Value
        ensures { result.now ≡ self.now.receiver }
    {
        &self.receiver
    }

    /// The number of the activation from which `^` answers.
    pub fn home(&self) -> u64
        ensures { result ≡ self.now.home }
    {
        self.home
    }

    /// The class that holds the method.
    pub fn holder(&self) -> Oid
        ensures { result ≡ self.now.holder }
    {
        self.holder
    }

    /// Whether the method is one of its class's class side.
    pub fn class_side(&self) -> bool
        ensures { result ≡ self.now.class_side }
    {
        self.class_side
    }
}

impl Clone for Frame {
    ghost is_clone = { λ frame copy. copy ≡ frame };

    fn clone(&self) -> Result<Frame, AllocError> {
        Ok(Frame {
            scopes: copy_marks(&self.scopes)?,
            receiver: self.receiver.clone()?,
            home: self.home,
            holder: self.holder,
            class_side: self.class_side,
        })
    }
}

fn copy_marks(marks: &Vec<Mark>) -> Result<Vec<Mark>, AllocError>
    ensures { IfOk result (λ copies. copies.items ≡ marks.now.items) }
{
    marks.clone()
}

/// The frame of a method that begins now: this class holds it, on its class side or not, and its
/// receiver is this. The scope of its variables is the next one.
pub fn method_frame(
    holder: Oid,
    class_side: bool,
    receiver: Value,
    locals: &Locals,
) -> Result<Frame, AllocError>
    ensures { IfOk result (λ frame. frame ≡ method_frame holder class_side receiver locals.now) }
{
    let mark = locals.mark();
    Ok(Frame {
        scopes: vec![in locals.allocator(); mark]?,
        receiver,
        home: mark.living,
        holder,
        class_side,
    })
}

/// The frame of such an activation without its scopes, for whoever keeps these elsewhere. It takes no
/// memory.
pub fn frame_without_scopes(
    alloc: Global,
    holder: Oid,
    class_side: bool,
    receiver: Value,
    home: u64,
) -> Frame
    ensures { result ≡ record {
      scopes = [];
      receiver = receiver;
      home = home;
      holder = holder;
      class_side = class_side;
    } }
{
    Frame {
        scopes: Vec::new(alloc),
        receiver,
        home,
        holder,
        class_side,
    }
}

/// Copies of these marks, and one more inside them.
fn one_more(marks: &Vec<Mark>, mark: Mark) -> Result<Vec<Mark>, AllocError>
    ensures { IfOk result (λ all. all.items ≡ marks.now.items ++ mark ∷ []) }
{
    let mut all = copy_marks(marks)?;
    all.push(mark)?;
    Ok(all)
}

/// The number of the scope at a depth among marks of which the last one is the innermost.
fn number_at(marks: &[Mark], depth: usize) -> u64
    ensures { result ≡ (get_or (reverse marks.now) depth no_mark).scopes }
{
    if depth < marks.len() {
        marks[marks.len() - 1 - depth].scopes
    } else {
        0
    }
}
