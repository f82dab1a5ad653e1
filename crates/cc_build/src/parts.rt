// What the making of trees has in common.
ghost use Rattle.std.specs.Prelude.{◌≡◌, [], ◌∷◌, ◌++◌, IfOk};
ghost use Rattle.cc_pushdown.specs.Build as spec;
ghost use Rattle.cc_pushdown.specs.Values.{nowhere as spec_nowhere};
ghost use Rattle.cc_pushdown.specs.Words as words;
ghost use Rattle.cc_tree.specs.Spans as spans;

use cc_base::Span;
use cc_pushdown::{Mark, Node};
use cc_tree::{Identifier, ReservedWord, Storage, Terminal};
use sqlite_items::{Boxed, Items};
use std::alloc::{AllocError, Global};

/// The span of what is not there yet.
pub fn nowhere() -> Span
    ensures { result ≡ spec_nowhere }
{
    Span { first: 0, past: 0 }
}

/// From the one to the other.
pub fn across(first: Span, last: Span) -> Span
    ensures { result ≡ spans.across first last }
{
    Span {
        first: first.first,
        past: last.past,
    }
}

/// Two marks as one.
pub fn joined(first: Mark, second: Mark) -> Mark
    ensures { result ≡ spec.joined first second }
{
    Mark {
        terminal: first.terminal,
        span: across(first.span, second.span),
    }
}

pub fn boxed<T: Drop>(alloc: Global, tree: T) -> Result<Boxed<T>, AllocError>
    ensures { IfOk result (λ made. made ≡ tree) }
{
    Boxed::new(alloc, tree)
}

/// A list with one more item.
pub fn added<T: Drop>(mut items: Items<T>, item: T) -> Result<Items<T>, AllocError>
    ensures { IfOk result (λ made. made ≡ items ++ item ∷ []) }
{
    items.push(item)?;
    Ok(items)
}

/// The span of a list with one more item.
pub fn grown<T>(list: &Node<Items<T>>, item: Span) -> Span
    ensures { result ≡ spec.grown list.now item }
{
    if list.tree.is_empty() {
        item
    } else {
        across(list.span, item)
    }
}

/// The span of a list after a sign: where it is empty, it stands where the sign ends.
pub fn list_span<T>(list: &Node<Items<T>>, before: Span) -> Span
    ensures { result ≡ spec.list_span list.now before }
{
    if list.tree.is_empty() {
        Span {
            first: before.past,
            past: before.past,
        }
    } else {
        list.span
    }
}

/// The span of a name with the namespaces before it.
pub fn qualified_span(path: &Items<Identifier>, name: &Identifier) -> Span
    ensures { result ≡ spans.qualified_span path.now name.now }
{
    match path.get(0) {
        Some(outer) => across(outer.span, name.span),
        None => name.span,
    }
}

/// Where a member begins.
pub fn first_span(storage: Option<Mark>, otherwise: Span) -> Span
    ensures { result ≡ spec.first_span storage otherwise }
{
    match storage {
        Some(mark) => mark.span,
        None => otherwise,
    }
}

pub fn storage_of(storage: Option<Mark>) -> Storage
    ensures { result ≡ words.storage_of storage }
{
    match storage {
        Some(
            Mark {
                terminal: Terminal::Word(ReservedWord::Static),
                ..
            },
        ) => Storage::Static,
        Some(_) => Storage::Virtual,
        None => Storage::Nothing,
    }
}

pub fn is_static(storage: Option<Mark>) -> bool
    ensures { result ≡ words.is_static storage }
{
    storage.is_some()
}

pub fn is_virtual(storage: Option<Mark>) -> bool
    ensures { result ≡ words.is_virtual storage }
{
    storage.is_some()
}
