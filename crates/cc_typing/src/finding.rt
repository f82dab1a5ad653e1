// Look-ups of functions among the declarations of a source (ECMA-372, 10.4).
use cc_base::Name;
use cc_names::{Declarations, Found, Place};
use cc_terms::Finder;

/// The declarations of a source, in which functions are found.
#[derive(Drop)]
pub(crate) struct Names<'a> {
    pub(crate) declarations: &'a Declarations,
}

impl Finder for Names<'_> {
    ghost use Rattle.cc_typing_laws.specs.Finding.{finds_in};

    ghost finds = { λ names. finds_in names.declarations.now.scopes names.declarations.now.items names.declarations.now.directives };

    fn find(&self, scope: u32, at: u32, name: &Name) -> Option<u32> {
        match self.declarations.look_up(Place { scope, at }, name) {
            None => None,
            Some(Found::TypeNamed(_)) => None,
            Some(Found::Functions(number)) => Some(number),
            Some(Found::Namespace(_)) => None,
            Some(Found::Item(_)) => None,
        }
    }
}
