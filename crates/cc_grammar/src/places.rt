// What the parser answers for a place that it refuses.
ghost use Rattle.std.specs.Prelude.{◌≡◌, Bool, IfOk};
ghost use Rattle.cc_tree.specs.CollectedNames.{collected};
ghost use Rattle.cc_tree.specs.Terminals as terminals;
ghost use Rattle.cc_tree.specs.Terminals.{classify};
ghost use Rattle.cc_grammar.specs.Parse as spec;
ghost use Rattle.cc_grammar.specs.Reading.{classified};

use crate::reading::Sorted;
use cc_base::Span;
use cc_terminals::ParseFault;
use cc_terminals::names::Names;
use cc_terminals::terminal::terminal;
use cc_tree::{Sign, Terminal, Token};
use std::alloc::{AllocError, Global};

/// The tokens with their terminal symbols over the collected names.
pub fn sorted<'a>(
    alloc: Global,
    names: &Names<'_>,
    tokens: &'a [Token],
) -> Result<Vec<Sorted<'a>>, AllocError>
    ensures { IfOk result (λ sorted. classified sorted.items ≡ classify (collected names.now.tokens.now) tokens.now) }
{
    let mut sorted = Vec::new(alloc);
    for token in tokens {
        sorted.push(Sorted {
            terminal: terminal(names, token),
            token,
        })?;
    }
    Ok(sorted)
}

/// Whether native pointers and arrays are declared by the sign (ECMA-372, 24.1).
fn is_pointer_sign(terminal: Terminal) -> bool
    ensures { result ≡ spec.is_pointer_sign terminal }
{
    match terminal {
        Terminal::Sign(Sign::Star | Sign::Ampersand | Sign::LogicalAnd | Sign::OpenBracket) => true,
        _ => false,
    }
}

/// Why the first token at which the tokens begin no source is refused.
pub fn refused_token(names: &Names<'_>, token: &Token) -> ParseFault
    requires scanned { spec.Scanned names.now.tokens.now }
    requires refused { (pointer : Bool) → spec.is_pointer_sign (terminals.terminal (collected names.now.tokens.now) token.now.kind) ≡ pointer → spec.RefusedAt names.now.tokens.now token.now.span pointer }
    ensures { spec.Refuses names.now.tokens.now result }
{
    if is_pointer_sign(terminal(names, token)) {
        ParseFault::NativePointer(token.span)
    } else {
        ParseFault::Syntax(token.span)
    }
}

/// The empty span where the last token ends.
pub fn end_of(tokens: &[Token]) -> Span
    ensures { result ≡ spec.end_of tokens.now }
{
    let mut end = Span { first: 0, past: 0 };
    let mut rest = tokens;
    'tokens: while let Some((token, more)) = rest.split_first() {
        end = Span {
            first: token.span.past,
            past: token.span.past,
        };
        rest = more;
    }
    end
}
