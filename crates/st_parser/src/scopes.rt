//! The names that are declared around a place.
ghost use Rattle.std.specs.Prelude.{◌≡◌, ◌∷◌, []};
ghost use Rattle.st_grammar.specs.Grammar.{scope, is_pseudo_variable, is_super, is_minus, is_among};
ghost use Rattle.st_grammar.specs.Grammar.{is_parameter, may_assign, may_declare};
ghost use Rattle.st_parser.specs.Scopes.{scopes_seen};

use texts::Text;

const SELF: &[u8] = b"self";

const SUPER: &[u8] = b"super";

const NIL: &[u8] = b"nil";

const TRUE: &[u8] = b"true";

const FALSE: &[u8] = b"false";

const MINUS: &[u8] = b"-";

// The names of the methods and blocks around, the innermost first: their parameters and their
// temporaries.
#[derive(Drop)]
pub(crate) enum Scopes<'a> {
    Outside,
    Inside(&'a [Text], &'a [Text], &'a Scopes<'a>),
}

// The scopes with these names within the others.
pub(crate) fn within<'a>(params: &'a [Text], temps: &'a [Text], outer: &'a Scopes<'a>) -> Scopes<'a>
    ensures { scopes_seen result ≡ scope params.now temps.now ∷ scopes_seen outer.now }
{
    Scopes::Inside(params, temps, outer)
}

// No scope.
pub(crate) fn nothing_around<'a>() -> Scopes<'a>
    ensures { scopes_seen result ≡ [] }
{
    Scopes::Outside
}

pub(crate) fn is_pseudo_variable(name: &[u8]) -> bool
    ensures { result ≡ is_pseudo_variable name.now }
{
    name == SELF || name == SUPER || name == NIL || name == TRUE || name == FALSE
}

pub(crate) fn is_super(name: &[u8]) -> bool
    ensures { result ≡ is_super name.now }
{
    name == SUPER
}

pub(crate) fn is_minus(selector: &[u8]) -> bool
    ensures { result ≡ is_minus selector.now }
{
    selector == MINUS
}

pub(crate) fn is_among(names: &[Text], name: &[u8]) -> bool
    ensures { result ≡ is_among names.now name.now }
{
    names.iter().any(|n| name == n.bytes())
}

fn is_parameter(scopes: &Scopes, name: &[u8]) -> bool
    ensures { result ≡ is_parameter (scopes_seen scopes.now) name.now }
{
    match scopes {
        Scopes::Outside => false,
        Scopes::Inside(params, temps, outer) => {
            is_among(params, name) || (!is_among(temps, name) && is_parameter(outer, name))
        }
    }
}

// The name may be assigned to in these scopes.
pub(crate) fn may_assign(scopes: &Scopes, name: &[u8]) -> bool
    ensures { result ≡ may_assign (scopes_seen scopes.now) name.now }
{
    !(is_pseudo_variable(name) || is_parameter(scopes, name))
}

// The name may be declared after these.
pub(crate) fn may_declare(before: &[Text], name: &[u8]) -> bool
    ensures { result ≡ may_declare before.now name.now }
{
    !(is_pseudo_variable(name) || is_among(before, name))
}
