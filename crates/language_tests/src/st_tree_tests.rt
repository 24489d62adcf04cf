//! Trees that are built, read back and copied.
ghost use Rattle.std.specs.Prelude.{◌≡◌, [], ◌∷◌, codes, pos, IfOk};
ghost use Rattle.st_tree.specs.Views.{constant_of};
ghost use Rattle.st_tree.specs.Trees.{Expression, expression, constant, int, char, sym, array};
ghost use Rattle.st_tree.specs.Trees.{constants, send, sends, expressions};

use st_tree::{BlockTree, Expr, Literal, Literals, Message, Primary, Stat, Tree};
use std::alloc::{AllocError, Global};
use std::process::Abort;
use std::test::Fail;
use texts::Text;

fn int(alloc: Global, value: i64) -> Expr
    ensures { result ≡ expression [] (constant (int value)) (sends []) (sends []) }
{
    Expr::of(alloc, Primary::Lit(Literal::Int(value)))
}

fn message(alloc: Global, selector: &[u8], value: i64) -> Result<Message, AllocError>
    ensures { IfOk result (λ m. m
        ≡ send selector.now (expressions
        (expression [] (constant (int value)) (sends []) (sends []) ∷ []))) }
{
    Ok(Message {
        selector: Text::copy_of(alloc, selector)?,
        args: vec![in alloc; int(alloc, value)]?,
    })
}

// `3 + 4 max: 9`, which sends `max:` to what `3 + 4` answers.
#[tactic(auto, using(st_tree::proofs::Appends::appends))]
fn greatest_of_sum(alloc: Global) -> Result<Expr, AllocError>
    ensures { IfOk result (λ e. e ≡ expression [] (constant (int (pos 3)))
        (sends (send (codes "+")
        (expressions (expression [] (constant (int (pos 4))) (sends []) (sends []) ∷ []))
        ∷ send (codes "max:") (expressions
        (expression [] (constant (int (pos 9))) (sends []) (sends []) ∷ [])) ∷ []))
        (sends [])) }
{
    let mut expr = int(alloc, 3);
    expr.messages.push(message(alloc, b"+", 4)?)?;
    expr.messages.push(message(alloc, b"max:", 9)?)?;
    Ok(expr)
}

// `#(1 $a #b)`
fn small_array(alloc: Global) -> Result<Literal, AllocError>
    ensures { IfOk result (λ l. constant_of l
        ≡ array (constants (int (pos 1) ∷ char 97 ∷ sym (codes "b") ∷ []))) }
{
    let mut items = Vec::new(alloc);
    items.push(Literal::Int(1))?;
    items.push(Literal::Char(b'a'))?;
    items.push(Literal::Sym(Text::copy_of(alloc, b"b")?))?;
    Ok(Literal::Array(Literals { items }))
}

fn is_int(expr: &Expr, value: i64) -> bool {
    let alone = expr.assigns.is_empty() && expr.messages.is_empty() && expr.cascade.is_empty();
    alone && matches!(&expr.head, Primary::Lit(Literal::Int(n)) if *n == value)
}

fn is_name(expr: &Expr, bytes: &[u8]) -> bool {
    matches!(&expr.head, Primary::Name(name) if name.bytes() == bytes)
}

fn has_one_int(message: &Message, selector: &[u8], value: i64) -> bool {
    message.selector.bytes() == selector
        && match message.args.as_slice() {
            [arg] => is_int(arg, value),
            _ => false,
        }
}

fn names(alloc: Global, bytes: &[u8]) -> Result<Vec<Text>, AllocError> {
    Ok(vec![in alloc; Text::copy_of(alloc, bytes)?]?)
}

fn unary(alloc: Global, selector: &[u8]) -> Result<Message, AllocError> {
    Ok(Message::unary(alloc, Text::copy_of(alloc, selector)?))
}

// `(sum) negated; yourself`
fn negated_sum(alloc: Global) -> Result<Expr, AllocError> {
    let name = Expr::of(alloc, Primary::Name(Text::copy_of(alloc, b"sum")?));
    let mut expr = Expr::of(alloc, Primary::Paren(Box::new(alloc, name)?));
    expr.messages.push(unary(alloc, b"negated")?)?;
    expr.cascade.push(unary(alloc, b"yourself")?)?;
    Ok(expr)
}

// `[:y | (sum) negated; yourself]`
fn block(alloc: Global) -> Result<BlockTree, AllocError> {
    let mut body = Vec::new(alloc);
    body.push(Stat {
        returns: false,
        expr: negated_sum(alloc)?,
    })?;
    Ok(BlockTree {
        params: names(alloc, b"y")?,
        temps: Vec::new(alloc),
        body,
    })
}

// `sum := 3 + 4 max: 9. ^[:y | (sum) negated; yourself]`
fn statements(alloc: Global) -> Result<Vec<Stat>, AllocError> {
    let mut sum = greatest_of_sum(alloc)?;
    sum.assigns.push(Text::copy_of(alloc, b"sum")?)?;
    let mut body = Vec::new(alloc);
    body.push(Stat {
        returns: false,
        expr: sum,
    })?;
    let answer = Expr::of(alloc, Primary::Block(block(alloc)?));
    body.push(Stat {
        returns: true,
        expr: answer,
    })?;
    Ok(body)
}

// The method `plus: x | sum | sum := 3 + 4 max: 9. ^[:y | (sum) negated; yourself]`.
fn method(alloc: Global) -> Result<Tree, AllocError> {
    Ok(Tree {
        selector: Some(Text::copy_of(alloc, b"plus:")?),
        params: names(alloc, b"x")?,
        temps: names(alloc, b"sum")?,
        body: statements(alloc)?,
    })
}

#[test]
fn reads_back_a_chain_of_messages(rt: HostRuntime) -> Result<(), Fail> {
    let expr = greatest_of_sum(rt.alloc())?;
    assert!(rt; expr.assigns.is_empty());
    assert!(rt; matches!(&expr.head, Primary::Lit(Literal::Int(3))));
    assert_eq!(rt; expr.messages.len(), 2);
    assert!(rt; has_one_int(&expr.messages[0], b"+", 4));
    assert!(rt; has_one_int(&expr.messages[1], b"max:", 9));
    assert!(rt; expr.cascade.is_empty());
    Ok(())
}

#[test]
fn reads_back_a_literal_array(rt: HostRuntime) -> Result<(), Fail> {
    let literal = small_array(rt.alloc())?.clone()?;
    let Literal::Array(array) = &literal else {
        return Err(Fail::from("no array"));
    };
    assert_eq!(rt; array.items.len(), 3);
    assert!(rt; matches!(&array.items[0], Literal::Int(1)));
    assert!(rt; matches!(&array.items[1], Literal::Char(b'a')));
    assert!(rt; matches!(&array.items[2], Literal::Sym(t) if t.bytes() == b"b".as_slice()));
    Ok(())
}

fn has_selector(tree: &Tree, selector: &[u8]) -> bool {
    match &tree.selector {
        Some(name) => name.bytes() == selector,
        None => false,
    }
}

fn check_names<R: Abort>(rt: &R, tree: &Tree) {
    assert!(rt; has_selector(tree, b"plus:"));
    assert_eq!(rt; tree.params.len(), 1);
    assert_eq!(rt; tree.temps.len(), 1);
    assert_eq!(rt; tree.temps[0].bytes(), b"sum".as_slice());
}

fn check_block<R: Abort>(rt: &R, block: &BlockTree) {
    assert_eq!(rt; block.params.len(), 1);
    assert_eq!(rt; block.body.len(), 1);
    let inner = &block.body[0].expr;
    assert!(rt; matches!(&inner.head, Primary::Paren(name) if is_name(name, b"sum")));
    assert_eq!(rt; inner.messages.len(), 1);
    assert_eq!(rt; inner.cascade.len(), 1);
    assert_eq!(rt; inner.cascade[0].selector.bytes(), b"yourself".as_slice());
}

fn check_statements<R: Abort>(rt: &R, sum: &Stat, answer: &Stat) {
    assert!(rt; !sum.returns);
    assert_eq!(rt; sum.expr.assigns.len(), 1);
    assert!(rt; answer.returns);
    match &answer.expr.head {
        Primary::Block(block) => check_block(rt, block),
        _ => panic!(rt; "no block"),
    }
}

#[test]
fn copies_a_method(rt: HostRuntime) -> Result<(), Fail> {
    let tree = method(rt.alloc())?.clone()?;
    check_names(&rt, &tree);
    match tree.body.as_slice() {
        [sum, answer] => check_statements(&rt, sum, answer),
        _ => panic!(rt; "not two statements"),
    }
    Ok(())
}

#[test]
fn makes_a_unary_message(rt: HostRuntime) -> Result<(), Fail> {
    let message = Message::unary(rt.alloc(), Text::copy_of(rt.alloc(), b"negated")?);
    assert_eq!(rt; message.selector.bytes(), b"negated".as_slice());
    assert!(rt; message.args.is_empty());
    Ok(())
}
