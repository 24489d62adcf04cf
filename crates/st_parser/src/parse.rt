//! Chunks and methods.
ghost use Rattle.std.specs.Prelude.{◌≡◌, ◌<◌, ◌≤◌, ◌-◌, ◌^◌, [], length, drop, IfOk, IfErr};
ghost use Rattle.st_tree.specs.Trees.{no_statements};
ghost use Rattle.st_grammar.specs.Grammar.{chunk, method, words_of};
ghost use Rattle.st_grammar.specs.Fails.{place_of, rule_number, of_grammar};
ghost use Rattle.st_grammar_laws.specs.Machine.{top, header, start};
ghost use Rattle.st_lexer.specs.Views.{tokens_seen};
ghost use Rattle.st_parser.specs.declared.faults.ParseFault.TheVariants.{Rule};
ghost use Rattle.st_parser.specs.Descent.{Finished, rule_of};
ghost use Rattle.st_parser.specs.Parsed.{form_of, IsTree, IsFault};

use crate::declarations::{pattern, temporaries};
use crate::expressions::statements;
use crate::faults::ParseFault;
use crate::reader::Reader;
use crate::scopes::{nothing_around, within};
use crate::stops::{Broken, Stop};
use st_lexer::{Token, tokens};
use st_tree::Tree;
use std::alloc::Global;
use texts::Text;

// The temporaries and the statements, up to the end.
fn body(
    alloc: Global,
    r: &mut Reader,
    selector: Option<Text>,
    params: Vec<Text>,
) -> Result<Tree, Stop>
    ensures { Finished (header (top selector params.items [] no_statements)) r.old r.new result }
{
    let temps = temporaries(alloc, r, &params)?;
    let outside = nothing_around();
    let scopes = within(&params, &temps, &outside);
    let body = statements(alloc, r, &scopes, 0)?;
    if r.left() > 0 {
        return Err(Stop::Breaks(Broken::Unexpected));
    }
    Ok(Tree {
        selector,
        params,
        temps,
        body,
    })
}

// What a text is to be.
#[derive(Clone, Copy, Debug, PartialEq, Eq)]
enum Form {
    Chunk,
    Method,
}

// The tree of a whole text of this form.
fn tree(alloc: Global, r: &mut Reader, form: Form) -> Result<Tree, Stop>
    ensures { Finished (start (form_of form)) r.old r.new result }
{
    match form {
        Form::Chunk => body(alloc, r, None, Vec::new(alloc)),
        Form::Method => {
            let pattern = pattern(alloc, r)?;
            body(alloc, r, Some(pattern.selector), pattern.params)
        }
    }
}

// Where the first of the tokens left begins, or the text's length where none is left.
fn place(text: &[u8], left: &[Token]) -> u32
    requires { length text.now < 2 ^ 32 }
    ensures { result ≡ place_of text.now (tokens_seen left.now) }
{
    match left.first() {
        Some(token) => token.start,
        None => text.len() as u32,
    }
}

// The fault of a text with so many tokens left.
fn fault(text: &[u8], tokens: &[Token], left: usize, broken: Broken) -> ParseFault
    requires short { length text.now < 2 ^ 32 }
    requires within { left ≤ length tokens.now }
    ensures { result ≡ Rule (place_of text.now
        (tokens_seen (drop (length tokens.now - left) tokens.now)))
        (rule_number (of_grammar (rule_of broken))) }
{
    let at = place(text, &tokens[tokens.len() - left..]);
    ParseFault::Rule {
        at,
        rule: broken.number(),
    }
}

// The tree of a text of this form, or why it has none.
#[tactic(auto, using(crate::proofs::Whole::whole, crate::proofs::Readings::tree_read, crate::proofs::Readings::fault_stops))]
fn parse(alloc: Global, form: Form, text: &[u8]) -> Result<Tree, ParseFault>
    requires { length text.now < 2 ^ 32 }
    ensures tree { IfOk result (IsTree (form_of form) text.now) }
    ensures fault { IfErr result (IsFault (form_of form) text.now) }
{
    let tokens = tokens(alloc, text)?;
    let mut r = Reader::new(text, &tokens);
    match tree(alloc, &mut r, form) {
        Ok(tree) => Ok(tree),
        Err(Stop::Breaks(broken)) => Err(fault(text, &tokens, r.left(), broken)),
        Err(Stop::Memory) => Err(ParseFault::NoMemory),
    }
}

/// The tree of a chunk: temporaries and statements.
///
/// # Errors
///
/// `Rule` exactly where the text isn't a chunk: the first place where it can't go on, and the rule
/// that it breaks there.
/// `NoMemory` where memory ran out, of which the contract says no more.
pub fn parse_chunk(alloc: Global, text: &[u8]) -> Result<Tree, ParseFault>
    requires { length text.now < 2 ^ 32 }
    ensures tree { IfOk result (IsTree chunk text.now) }
    ensures fault { IfErr result (IsFault chunk text.now) }
{
    parse(alloc, Form::Chunk, text)
}

/// The tree of a method: a pattern, temporaries and statements.
///
/// # Errors
///
/// `Rule` exactly where the text isn't a method: the first place where it can't go on, and the rule
/// that it breaks there.
/// `NoMemory` where memory ran out, of which the contract says no more.
pub fn parse_method(alloc: Global, text: &[u8]) -> Result<Tree, ParseFault>
    requires { length text.now < 2 ^ 32 }
    ensures tree { IfOk result (IsTree method text.now) }
    ensures fault { IfErr result (IsFault method text.now) }
{
    parse(alloc, Form::Method, text)
}
