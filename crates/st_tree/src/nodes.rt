//! The nodes of the tree.
ghost use Rattle.std.specs.Prelude.{◌≡◌, []};

use std::alloc::Global;
use std::marker::Model;
use texts::Text;

/// A literal: an object that is written out in the text.
#[cycle(literal)]
#[derive(Debug, Drop)]
pub enum Literal {
    /// An integer. The tree sets no bound but that of the type.
    Int(i64),
    /// A character, by its code.
    Char(u8),
    /// A string: the bytes between its quotes, a doubled quote counted once.
    Str(Text),
    /// A symbol: the bytes after `#`.
    Sym(Text),
    Nil,
    True,
    False,
    Array(Literals),
}

/// The elements of a literal array.
#[cycle(literal)]
#[derive(Debug, Drop)]
pub struct Literals {
    pub items: Vec<Literal>,
}

impl Model for Literals {
    ghost use Rattle.st_tree.specs.Trees.{Constants, constants};
    ghost use Rattle.st_tree.specs.Codes.{constants_code};
    ghost use Rattle.st_tree.specs.Falls.{size_constants};
    ghost use Rattle.std.specs.Prelude.{map};
    ghost use Rattle.std.proofs.Common.{arith};

    ghost Value = { Constants };

    ghost coded = { constants_code };

    ghost use Rattle.st_tree.specs.Views.{constant_of};

    ghost view = { λ l. constants (map constant_of l.items.items) };

    ghost size = { size_constants };

    ghost use Rattle.st_tree.specs.EnumFalls.{most_literals};

    ghost size_decreases = { λ a h. Prim.omega (arith, most_literals a.items.items) };
}

/// What the first message of an expression is sent to.
#[cycle(expression)]
#[derive(Debug, Drop)]
pub enum Primary {
    /// A variable, or a name with a meaning of its own, as `self` and `super`.
    Name(Text),
    /// A literal.
    Lit(Literal),
    /// A block.
    Block(BlockTree),
    /// An expression in parentheses.
    Paren(Box<Expr>),
}

/// A block, with the names of its parameters and of its temporaries in order.
#[cycle(expression)]
#[derive(Debug, Drop)]
pub struct BlockTree {
    pub params: Vec<Text>,
    pub temps: Vec<Text>,
    pub body: Vec<Stat>,
}

impl Model for BlockTree {
    ghost use Rattle.st_tree.specs.Trees.{Closure, closure, statements};
    ghost use Rattle.st_tree.specs.Codes.{closure_code};
    ghost use Rattle.st_tree.specs.Falls.{size_closure, most_statements};
    ghost use Rattle.std.proofs.Common.{arith};

    ghost Value = { Closure };

    ghost coded = { closure_code };

    ghost view = { λ b. closure b.params.items b.temps.items (statements b.body.items) };

    ghost size = { size_closure };

    ghost size_decreases = { λ a h. Prim.omega (arith, most_statements a.body.items) };
}

/// A statement. `returns` says whether `^` stands before its expression.
#[cycle(expression)]
#[derive(Debug, Drop)]
pub struct Stat {
    pub returns: bool,
    pub expr: Expr,
}

impl Model for Stat {
    ghost use Rattle.st_tree.specs.Trees.{Statement, statement};
    ghost use Rattle.st_tree.specs.Codes.{statement_code};
    ghost use Rattle.st_tree.specs.Falls.{size_statement};
    ghost use Rattle.std.proofs.Common.{arith};

    ghost Value = { Statement };

    ghost coded = { statement_code };

    ghost view = { λ s. statement s.returns s.expr };

    ghost size = { size_statement };

    ghost size_decreases = { λ a h. Prim.omega arith };
}

/// An expression: the variables that it assigns to, in the order written, a primary, the messages
/// in the order that they are sent, and the messages of its cascade, which go to the receiver of
/// the last of `messages`.
#[cycle(expression)]
#[derive(Debug, Drop)]
pub struct Expr {
    pub assigns: Vec<Text>,
    pub head: Primary,
    pub messages: Vec<Message>,
    pub cascade: Vec<Message>,
}

impl Model for Expr {
    ghost use Rattle.st_tree.specs.Trees.{Expression, expression, sends};
    ghost use Rattle.st_tree.specs.Codes.{expression_code};
    ghost use Rattle.st_tree.specs.Falls.{size_expression, most_sends};
    ghost use Rattle.std.proofs.Common.{arith};

    ghost Value = { Expression };

    ghost coded = { expression_code };

    ghost use Rattle.st_tree.specs.Views.{head_of};

    ghost view = { λ e. expression e.assigns.items (head_of e.head) (sends e.messages.items)
        (sends e.cascade.items) };

    ghost size = { size_expression };

    ghost use Rattle.st_tree.specs.EnumFalls.{head_falls};

    ghost size_decreases = { λ a h. Prim.omega
        (arith, head_falls a.head, most_sends a.messages.items, most_sends a.cascade.items) };
}

/// A message: a selector, and an argument for the operator or for each keyword.
#[cycle(expression)]
#[derive(Debug, Drop)]
pub struct Message {
    pub selector: Text,
    pub args: Vec<Expr>,
}

impl Model for Message {
    ghost use Rattle.st_tree.specs.Trees.{Send, send, expressions};
    ghost use Rattle.st_tree.specs.Codes.{send_code};
    ghost use Rattle.st_tree.specs.Falls.{size_send, most_expressions};
    ghost use Rattle.std.proofs.Common.{arith};

    ghost Value = { Send };

    ghost coded = { send_code };

    ghost view = { λ m. send m.selector (expressions m.args.items) };

    ghost size = { size_send };

    ghost size_decreases = { λ a h. Prim.omega (arith, most_expressions a.args.items) };
}

/// The tree of a whole text: a method, with its selector and parameters, or a chunk, which has
/// neither.
#[derive(Debug, Drop)]
pub struct Tree {
    pub selector: Option<Text>,
    pub params: Vec<Text>,
    pub temps: Vec<Text>,
    pub body: Vec<Stat>,
}

impl Model for Tree {
    ghost use Rattle.st_tree.specs.Trees.{Program, statements};
    ghost use Rattle.st_tree.specs.Codes.{program_code};

    ghost Value = { Program };

    ghost coded = { program_code };

    ghost view = { λ t. record {
      selector = t.selector;
      params = t.params.items;
      temps = t.temps.items;
      body = statements t.body.items;
    } };
}

impl Expr {
    ghost use Rattle.st_tree.specs.Trees.{expression, no_sends};
    ghost use Rattle.st_tree.specs.Views.{head_of};

    /// The expression that is this primary alone. It takes no memory.
    pub fn of(alloc: Global, head: Primary) -> Expr
        ensures { result ≡ expression [] (head_of head) no_sends no_sends }
    {
        Expr {
            assigns: Vec::new(alloc),
            head,
            messages: Vec::new(alloc),
            cascade: Vec::new(alloc),
        }
    }
}

impl Message {
    ghost use Rattle.st_tree.specs.Trees.{send, no_expressions};

    /// The unary message with this selector. It takes no memory.
    pub fn unary(alloc: Global, selector: Text) -> Message
        ensures { result ≡ send selector no_expressions }
    {
        Message {
            selector,
            args: Vec::new(alloc),
        }
    }
}
