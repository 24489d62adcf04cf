//! Expressions, messages, statements and blocks.
ghost use Rattle.std.specs.Prelude.{◌≡◌, ◌&&◌, ◌<◌, ◌≤◌, ◌∷◌, [], true, false, List, length, IfOk};
ghost use Rattle.std.specs.Prelude.{IfErr};
ghost use Rattle.texts.specs.Bytes.{Bytes};
ghost use Rattle.st_tree.specs.Trees.{Constant, Head, Sends, Expression, Expressions, Statement};
ghost use Rattle.st_tree.specs.Trees.{name, constant, expression, no_sends, sends, statements};
ghost use Rattle.st_tree.specs.Trees.{no_statements, no_expressions};
ghost use Rattle.st_tree.specs.Views.{head_of};
ghost use Rattle.st_grammar.specs.Grammar.{Word, any_message, no_unary, no_message};
ghost use Rattle.st_lexer.specs.Views.{kind_seen};
ghost use Rattle.st_grammar_laws.specs.Machine.{Seat, Wide, Slot, Body, Role, as_cascade, outer};
ghost use Rattle.st_grammar_laws.specs.Machine.{alone, in_body, in_block, in_paren, binary_part};
ghost use Rattle.st_grammar_laws.specs.Machine.{keyword_part, want, named, minus, have, begin};
ghost use Rattle.st_grammar_laws.specs.Machine.{ended, in_params, after_semicolon, bare, added};
ghost use Rattle.st_grammar_laws.specs.Machine.{behind_role, scopes_seat, scopes_of, depth_of};
ghost use Rattle.st_grammar_laws.specs.Machine.{level_of, is_full, binary_send};
ghost use Rattle.st_parser.specs.declared.stops.Stop.TheVariants.{Memory};
ghost use Rattle.st_parser.specs.Scopes.{scopes_seen};
ghost use Rattle.st_parser.specs.Levels.{level_seen};
ghost use Rattle.st_parser.specs.Lexemes.{HoldsNumber, word_of, others};
ghost use Rattle.st_grammar.specs.Tokens.{assign, caret, identifier, open_array, open_bracket, open_paren, semicolon};
ghost use Rattle.st_parser.specs.Descent.{with_head, with_sends, Reached, Suits, starts, assigns};
ghost use Rattle.st_parser.specs.Descent.{begins_statement, behind_statement, returns_of, is_quiet};
ghost use Rattle.st_parser.specs.Descent.{is_quiet_statement, holding};
ghost use Rattle.st_parser.specs.Descent.{is_kind, is_short_message, is_other_head};

use crate::declarations::{parameters, skip_bar, temporaries};
use crate::levels::Level;
use crate::literals::{atom, elements};
use crate::numbers::negative;
use crate::reader::{Lexeme, Reader};
use crate::scopes::{Scopes, is_minus, is_super, may_assign, within};
use crate::stops::{Broken, Stop};
use st_grammar::DEPTH_LIMIT;
use st_lexer::TokenKind;
use st_tree::{BlockTree, Expr, Literal, Message, Primary, Stat};
use std::alloc::Global;
use texts::Text;

// The names and `:=` before an expression.
fn assignments(alloc: Global, r: &mut Reader, scopes: &Scopes) -> Result<Vec<Text>, Stop>
    ensures met { (o : Seat) → scopes_seat o ≡ scopes_seen scopes.now
        → Reached (want (outer (alone o)) []) r.old
        (λ names. want (outer (alone o)) names.items) r.new result }
    ensures stops { IfOk result (λ _. assigns r.new ≡ false) }
    ensures shorter { IfOk result (λ _. length r.new ≤ length r.old) }
{
    let mut names = Vec::new(alloc);
    'names: while let Some(name) = r.assigned_name() {
        r.skip();
        if !may_assign(scopes, name) {
            return Err(Stop::Breaks(Broken::Assignment));
        }
        names.push(Text::copy_of(alloc, name)?)?;
        r.skip();
    }
    Ok(names)
}

// The unary messages to a head.
fn unary_messages(alloc: Global, r: &mut Reader) -> Result<Vec<Message>, Stop>
    ensures met { (k : Slot) (names : List Bytes) (h : Head)
        → Reached (have k (bare names h) any_message) r.old
        (λ ms. with_sends k names h ms.items any_message) r.new result }
    ensures stops { IfOk result (λ _. starts (is_kind identifier) r.new ≡ false) }
    ensures shorter { IfOk result (λ _. length r.new ≤ length r.old) }
{
    let mut messages = Vec::new(alloc);
    'unary: while let Some(
        Lexeme {
            kind: TokenKind::Identifier,
            bytes,
            ..
        },
    ) = r.peek()
    {
        messages.push(Message::unary(alloc, Text::copy_of(alloc, bytes)?))?;
        r.skip();
    }
    Ok(messages)
}

// A variable, which is read, or `super` before a message that may stand here.
fn variable(alloc: Global, r: &mut Reader, name: &[u8], level: Level) -> Result<Primary, Stop>
    requires { (is_full (level_seen level) && starts (is_kind assign) r.old) ≡ false }
    ensures met { (k : Slot) (names : List Bytes) → level_of k ≡ level_seen level
        → Reached (named k names name.now) r.old (with_head k names) r.new result }
    ensures shorter { length r.new ≤ length r.old }
{
    if !is_super(name) {
        return Ok(Primary::Name(Text::copy_of(alloc, name)?));
    }
    if !r.begins_message(level) {
        return Err(Stop::Breaks(Broken::Unexpected));
    }
    Ok(Primary::Name(Text::copy_of(alloc, name)?))
}

// A literal of one token.
fn literal_head(alloc: Global, r: &mut Reader, lexeme: &Lexeme) -> Result<Primary, Stop>
    requires number { HoldsNumber lexeme.now }
    requires shown { r.old ≡ word_of lexeme.now ∷ others r.old }
    requires other { is_other_head (kind_seen lexeme.now.kind) ≡ true }
    ensures met { (k : Slot) (names : List Bytes)
        → Reached (want k names) r.old (with_head k names) r.new result }
    ensures shorter { IfOk result (λ _. length r.new < length r.old) }
{
    match atom(alloc, lexeme)? {
        Some(literal) => {
            r.skip();
            Ok(Primary::Lit(literal))
        }
        None => Err(Stop::Breaks(Broken::Unexpected)),
    }
}

// The number after a `-`, which has to touch it.
fn negative_number(r: &mut Reader) -> Result<Primary, Stop>
    ensures met { (k : Slot) (names : List Bytes)
        → Reached (minus k names) r.old (with_head k names) r.new result }
    ensures shorter { length r.new ≤ length r.old }
{
    match r.peek() {
        Some(
            Lexeme {
                kind: TokenKind::Number,
                bytes,
                touches: true,
            },
        ) => {
            r.skip();
            Ok(Primary::Lit(Literal::Int(negative(bytes))))
        }
        _ => Err(Stop::Breaks(Broken::Unexpected)),
    }
}

// A literal array, at its `#(`.
fn array_head(alloc: Global, r: &mut Reader, depth: usize) -> Result<Primary, Stop>
    requires small { depth ≤ DEPTH_LIMIT }
    requires opens { starts (is_kind open_array) r.old ≡ true }
    ensures met { (k : Slot) (names : List Bytes) → depth_of k ≡ depth
        → Reached (want k names) r.old (with_head k names) r.new result }
    ensures shorter { IfOk result (λ _. length r.new < length r.old) }
{
    if depth >= DEPTH_LIMIT {
        return Err(Stop::Breaks(Broken::Depth));
    }
    r.skip();
    Ok(Primary::Lit(Literal::Array(elements(alloc, r, depth + 1)?)))
}

// The names that a block declares.
#[derive(Debug, Drop)]
struct BlockNames {
    params: Vec<Text>,
    temps: Vec<Text>,
}

// The parameters and temporaries of a block, whose `[` is read.
fn block_names(alloc: Global, r: &mut Reader) -> Result<BlockNames, Stop>
    ensures met { (k : Slot) (names : List Bytes)
        → Reached (in_params k names []) r.old
        (λ n. begin (in_block k names n.params.items n.temps.items no_statements)) r.new result }
    ensures shorter { IfOk result (λ _. length r.new ≤ length r.old) }
{
    let params = parameters(alloc, r)?;
    skip_bar(r, &params)?;
    let temps = temporaries(alloc, r, &params)?;
    Ok(BlockNames { params, temps })
}

// What the first message of an expression is sent to.
#[cycle(expression)]
fn head(
    alloc: Global,
    r: &mut Reader,
    scopes: &Scopes,
    depth: usize,
    level: Level,
) -> Result<Primary, Stop>
    requires small { depth ≤ DEPTH_LIMIT }
    requires unassigned { (is_full (level_seen level) && assigns r.old) ≡ false }
    ensures met { (k : Slot) (names : List Bytes) → Suits k (scopes_seen scopes.now) depth
        → level_of k ≡ level_seen level
        → Reached (want k names) r.old (with_head k names) r.new result }
    ensures shorter { IfOk result (λ _. length r.new < length r.old) }
{
    let Some(lexeme) = r.peek() else {
        return Err(Stop::Breaks(Broken::Unexpected));
    };
    match lexeme.kind {
        TokenKind::Identifier => {
            r.skip();
            variable(alloc, r, lexeme.bytes, level)
        }
        TokenKind::Binary => {
            if !is_minus(lexeme.bytes) {
                return Err(Stop::Breaks(Broken::Unexpected));
            }
            r.skip();
            negative_number(r)
        }
        TokenKind::OpenArray => array_head(alloc, r, depth),
        TokenKind::OpenParen => paren(alloc, r, scopes, depth),
        TokenKind::OpenBracket => block(alloc, r, scopes, depth),
        _ => literal_head(alloc, r, &lexeme),
    }
}

// An expression in parentheses, at its `(`.
#[cycle(expression)]
fn paren(alloc: Global, r: &mut Reader, scopes: &Scopes, depth: usize) -> Result<Primary, Stop>
    requires small { depth ≤ DEPTH_LIMIT }
    requires opens { starts (is_kind open_paren) r.old ≡ true }
    ensures met { (k : Slot) (names : List Bytes) → Suits k (scopes_seen scopes.now) depth
        → Reached (want k names) r.old (with_head k names) r.new result }
    ensures shorter { IfOk result (λ _. length r.new < length r.old) }
{
    if depth >= DEPTH_LIMIT {
        return Err(Stop::Breaks(Broken::Depth));
    }
    r.skip();
    let inner = expression(alloc, r, scopes, depth + 1)?;
    if !r.is_at(TokenKind::CloseParen) {
        return Err(Stop::Breaks(Broken::MissingParen));
    }
    r.skip();
    Ok(Primary::Paren(Box::new(alloc, inner)?))
}

// A block, at its `[`.
#[cycle(expression)]
fn block(alloc: Global, r: &mut Reader, scopes: &Scopes, depth: usize) -> Result<Primary, Stop>
    requires small { depth ≤ DEPTH_LIMIT }
    requires opens { starts (is_kind open_bracket) r.old ≡ true }
    ensures met { (k : Slot) (names : List Bytes) → Suits k (scopes_seen scopes.now) depth
        → Reached (want k names) r.old (with_head k names) r.new result }
    ensures shorter { IfOk result (λ _. length r.new < length r.old) }
{
    if depth >= DEPTH_LIMIT {
        return Err(Stop::Breaks(Broken::Depth));
    }
    r.skip();
    let names = block_names(alloc, r)?;
    let inner = within(&names.params, &names.temps, &*scopes);
    let body = statements(alloc, r, &inner, depth + 1)?;
    if !r.is_at(TokenKind::CloseBracket) {
        return Err(Stop::Breaks(Broken::MissingBracket));
    }
    r.skip();
    Ok(Primary::Block(BlockTree {
        params: names.params,
        temps: names.temps,
        body,
    }))
}

// The statements of a body, up to a token that begins none.
#[cycle(expression)]
pub(crate) fn statements(
    alloc: Global,
    r: &mut Reader,
    scopes: &Scopes,
    depth: usize,
) -> Result<Vec<Stat>, Stop>
    requires small { depth ≤ DEPTH_LIMIT }
    ensures met { (b : Body) → Suits (outer (alone (in_body b false)))
        (scopes_seen scopes.now) depth
        → Reached (begin (holding b no_statements)) r.old
        (λ body. ended (holding b (statements body.items))) r.new result }
    ensures shorter { IfOk result (λ _. length r.new ≤ length r.old) }
{
    let mut body = Vec::new(alloc);
    'statements: while r.begins_statement() {
        let returns = r.is_at(TokenKind::Caret);
        body.push(statement(alloc, r, scopes, depth)?)?;
        if !r.is_at(TokenKind::Period) {
            return Ok(body);
        }
        r.skip();
        if returns {
            return Ok(body);
        }
    }
    Ok(body)
}

#[cycle(expression)]
fn statement(alloc: Global, r: &mut Reader, scopes: &Scopes, depth: usize) -> Result<Stat, Stop>
    requires small { depth ≤ DEPTH_LIMIT }
    requires begins { begins_statement r.old ≡ true }
    ensures met { (b : Body) → Suits (outer (alone (in_body b false)))
        (scopes_seen scopes.now) depth
        → Reached (begin b) r.old (λ s. behind_statement b s) r.new result }
    ensures returns { IfOk result (λ s. returns_of s ≡ starts (is_kind caret) r.old) }
    ensures quiet { IfOk result (λ s. is_quiet_statement s r.new) }
    ensures shorter { IfOk result (λ _. length r.new < length r.old) }
{
    if r.is_at(TokenKind::Caret) {
        r.skip();
        return Ok(Stat {
            returns: true,
            expr: expression(alloc, r, scopes, depth)?,
        });
    }
    Ok(Stat {
        returns: false,
        expr: expression(alloc, r, scopes, depth)?,
    })
}

#[cycle(expression)]
fn expression(alloc: Global, r: &mut Reader, scopes: &Scopes, depth: usize) -> Result<Expr, Stop>
    requires small { depth ≤ DEPTH_LIMIT }
    ensures met { (o : Seat) → Suits (outer (alone o)) (scopes_seen scopes.now) depth
        → Reached (want (outer (alone o)) []) r.old
        (λ e. have (outer (alone o)) e no_message) r.new result }
    ensures quiet { IfOk result (λ e. is_quiet e r.new) }
    ensures shorter { IfOk result (λ _. length r.new < length r.old) }
{
    let assigns = assignments(alloc, r, scopes)?;
    let head = head(alloc, r, scopes, depth, Level::Full)?;
    let messages = messages(alloc, r, scopes, depth)?;
    let cascade = cascade(alloc, r, scopes, depth, &messages)?;
    Ok(Expr {
        assigns,
        head,
        messages,
        cascade,
    })
}

// The messages to a head, without a cascade.
#[cycle(expression)]
fn messages(
    alloc: Global,
    r: &mut Reader,
    scopes: &Scopes,
    depth: usize,
) -> Result<Vec<Message>, Stop>
    requires small { depth ≤ DEPTH_LIMIT }
    ensures met { (o : Seat) (names : List Bytes) (h : Head)
        → Suits (outer (alone o)) (scopes_seen scopes.now) depth
        → Reached (have (outer (alone o)) (bare names h) any_message) r.old
        (λ ms. with_sends (outer (alone o)) names h ms.items no_message) r.new result }
    ensures shorter { IfOk result (λ _. length r.new ≤ length r.old) }
{
    let mut messages = unary_messages(alloc, r)?;
    binary_messages(alloc, r, scopes, depth, &mut messages)?;
    if let Some(
        Lexeme {
            kind: TokenKind::Keyword,
            bytes,
            ..
        },
    ) = r.peek()
    {
        r.skip();
        messages.push(keyword_message(alloc, r, scopes, depth, bytes)?)?;
        return Ok(messages);
    }
    Ok(messages)
}

// The messages after semicolons, of which there is none where there are no messages before.
#[cycle(expression)]
fn cascade(
    alloc: Global,
    r: &mut Reader,
    scopes: &Scopes,
    depth: usize,
    messages: &[Message],
) -> Result<Vec<Message>, Stop>
    requires small { depth ≤ DEPTH_LIMIT }
    ensures met { (o : Seat) (names : List Bytes) (h : Head)
        → Suits (outer (alone o)) (scopes_seen scopes.now) depth
        → Reached (with_sends (outer (alone o)) names h messages.now no_message) r.old
        (λ cs. have (outer (alone o))
        (expression names h (sends messages.now) (sends cs.items)) no_message) r.new result }
    ensures quiet { IfOk result (λ _. (names : List Bytes) (h : Head) (cs : Sends)
        → is_quiet (expression names h (sends messages.now) cs) r.new) }
    ensures shorter { IfOk result (λ _. length r.new ≤ length r.old) }
{
    let mut cascade = Vec::new(alloc);
    if messages.is_empty() {
        return Ok(cascade);
    }
    'cascade: while r.is_at(TokenKind::Semicolon) {
        r.skip();
        cascade.push(message(alloc, r, scopes, depth)?)?;
    }
    Ok(cascade)
}

// A message of a cascade, whose `;` is read.
#[cycle(expression)]
fn message(alloc: Global, r: &mut Reader, scopes: &Scopes, depth: usize) -> Result<Message, Stop>
    requires small { depth ≤ DEPTH_LIMIT }
    ensures met { (o : Seat) (e : Expression)
        → Suits (outer (alone o)) (scopes_seen scopes.now) depth
        → Reached (after_semicolon o e) r.old
        (λ m. have (outer (alone o)) (added as_cascade e m) no_message) r.new result }
    ensures shorter { IfOk result (λ _. length r.new < length r.old) }
{
    let Some(lexeme) = r.peek() else {
        return Err(Stop::Breaks(Broken::Unexpected));
    };
    match lexeme.kind {
        TokenKind::Identifier => {
            let selector = Text::copy_of(alloc, lexeme.bytes)?;
            r.skip();
            Ok(Message::unary(alloc, selector))
        }
        TokenKind::Binary => {
            r.skip();
            binary_message(alloc, r, scopes, depth, lexeme.bytes)
        }
        TokenKind::Bar => {
            r.skip();
            binary_message(alloc, r, scopes, depth, lexeme.bytes)
        }
        TokenKind::Keyword => {
            r.skip();
            keyword_message(alloc, r, scopes, depth, lexeme.bytes)
        }
        _ => Err(Stop::Breaks(Broken::Unexpected)),
    }
}

// An argument of a keyword message.
#[cycle(expression)]
fn argument(alloc: Global, r: &mut Reader, scopes: &Scopes, depth: usize) -> Result<Expr, Stop>
    requires small { depth ≤ DEPTH_LIMIT }
    ensures met { (o : Seat) (role : Role) (f : Expression) (selector : Bytes) (es : Expressions)
        → Suits (outer (alone o)) (scopes_seen scopes.now) depth
        → Reached (want (outer (keyword_part o role f selector es)) []) r.old
        (λ e. have (outer (keyword_part o role f selector es)) e no_unary) r.new result }
    ensures stops { IfOk result (λ _. starts is_short_message r.new ≡ false) }
    ensures shorter { IfOk result (λ _. length r.new < length r.old) }
{
    let head = head(alloc, r, scopes, depth, Level::OfKeyword)?;
    let mut messages = unary_messages(alloc, r)?;
    binary_messages(alloc, r, scopes, depth, &mut messages)?;
    Ok(Expr {
        assigns: Vec::new(alloc),
        head,
        messages,
        cascade: Vec::new(alloc),
    })
}

// The binary messages, put after the unary ones.
#[cycle(expression)]
fn binary_messages(
    alloc: Global,
    r: &mut Reader,
    scopes: &Scopes,
    depth: usize,
    messages: &mut Vec<Message>,
) -> Result<(), Stop>
    requires small { depth ≤ DEPTH_LIMIT }
    requires unary { starts (is_kind identifier) r.old ≡ false }
    ensures met { (w : Wide) (names : List Bytes) (h : Head)
        → Suits (outer w) (scopes_seen scopes.now) depth
        → Reached (with_sends (outer w) names h messages.old.items no_unary) r.old
        (λ _. with_sends (outer w) names h messages.new.items no_unary) r.new result }
    ensures stops { IfOk result (λ _. starts is_short_message r.new ≡ false) }
    ensures shorter { IfOk result (λ _. length r.new ≤ length r.old) }
{
    'binary: while let Some(selector) = r.selector() {
        r.skip();
        messages.push(binary_message(alloc, r, scopes, depth, selector)?)?;
    }
    Ok(())
}

// The binary message with this selector, which is read.
#[cycle(expression)]
fn binary_message(
    alloc: Global,
    r: &mut Reader,
    scopes: &Scopes,
    depth: usize,
    selector: &[u8],
) -> Result<Message, Stop>
    requires small { depth ≤ DEPTH_LIMIT }
    ensures met { (w : Wide) (role : Role) (f : Expression)
        → Suits (outer w) (scopes_seen scopes.now) depth
        → Reached (want (binary_part w role f selector.now) []) r.old
        (λ m. have (outer w) (added role f m) (behind_role role)) r.new result }
    ensures stops { IfOk result (λ _. starts (is_kind identifier) r.new ≡ false) }
    ensures shorter { IfOk result (λ _. length r.new < length r.old) }
{
    let head = head(alloc, r, scopes, depth, Level::OfBinary)?;
    let messages = unary_messages(alloc, r)?;
    binary_with(alloc, selector, head, messages)
}

// The binary message with this selector, and the argument with this head and these messages.
fn binary_with(
    alloc: Global,
    selector: &[u8],
    head: Primary,
    messages: Vec<Message>,
) -> Result<Message, Stop>
    ensures message { IfOk result
        (λ m. m ≡ binary_send selector.now
        (expression [] (head_of head) (sends messages.items) no_sends)) }
    ensures memory { IfErr result (λ e. e ≡ Memory) }
{
    let selector = Text::copy_of(alloc, selector)?;
    let argument = Expr {
        assigns: Vec::new(alloc),
        head,
        messages,
        cascade: Vec::new(alloc),
    };
    let mut args = Vec::new(alloc);
    args.push(argument)?;
    Ok(Message { selector, args })
}

// The message whose selector begins with this keyword, which is read.
#[cycle(expression)]
fn keyword_message(
    alloc: Global,
    r: &mut Reader,
    scopes: &Scopes,
    depth: usize,
    first: &[u8],
) -> Result<Message, Stop>
    requires small { depth ≤ DEPTH_LIMIT }
    ensures met { (o : Seat) (role : Role) (f : Expression)
        → Suits (outer (alone o)) (scopes_seen scopes.now) depth
        → Reached (want (outer (keyword_part o role f first.now no_expressions)) []) r.old
        (λ m. have (outer (alone o)) (added role f m) no_message) r.new result }
    ensures shorter { IfOk result (λ _. length r.new < length r.old) }
{
    let mut selector = first.to_vec(alloc)?;
    let mut args = Vec::new(alloc);
    'parts: loop {
        args.push(argument(alloc, r, scopes, depth)?)?;
        let Some(
            Lexeme {
                kind: TokenKind::Keyword,
                bytes,
                ..
            },
        ) = r.peek()
        else {
            return Ok(Message {
                selector: Text::of(selector),
                args,
            });
        };
        selector.extend_from_slice(bytes)?;
        r.skip();
    }
}
