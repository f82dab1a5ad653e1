// Which classes a token names.
ghost use Rattle.std.specs.Prelude.{◌≡◌, slice_get};
ghost use Rattle.cc_execution.specs.Handlers.{names, derives};
ghost use Rattle.cc_handlers.specs.Classes.{look_at, is_of};

use cc_base::ClassId;
use cc_execution::ClassRow;

// What a row of a class tells of a token.
#[derive(Clone, Copy)]
enum Look {
    // The token names the class.
    Named,
    // It may name the base class.
    Base(ClassId),
    // It names neither.
    Neither,
}

// The token is one of these.
fn is_named(tokens: &[u32], token: u32) -> bool
    ensures { result ≡ names tokens.now token }
{
    for t in tokens {
        if *t == token {
            return true;
        }
    }
    false
}

// What a class tells of a token.
fn look_at(classes: &[ClassRow], class: ClassId, token: u32) -> Look
    ensures { result ≡ look_at (slice_get classes.now class.0) token }
{
    let place = class.0 as usize;
    if place >= classes.len() {
        return Look::Neither;
    }
    let row = &classes[place];
    if is_named(row.tokens.as_slice(), token) {
        return Look::Named;
    }
    match row.base {
        None => Look::Neither,
        Some(base) => Look::Base(base),
    }
}

/// The token names the class, or one that it reaches through its bases (ECMA-335, I.12.4.2.5).
pub fn derives(classes: &[ClassRow], class: ClassId, token: u32) -> bool
    ensures { result ≡ derives classes.now class token }
{
    let mut at = class;
    for _ in 0..classes.len() {
        match look_at(classes, at, token) {
            Look::Named => return true,
            Look::Neither => return false,
            Look::Base(base) => at = base,
        }
    }
    false
}

/// The token names the class of an exception, or one that it reaches; none names that of what is no exception.
pub fn is_of(classes: &[ClassRow], thrown: Option<ClassId>, token: u32) -> bool
    ensures { result ≡ is_of classes.now thrown token }
{
    match thrown {
        None => false,
        Some(class) => derives(classes, class, token),
    }
}
