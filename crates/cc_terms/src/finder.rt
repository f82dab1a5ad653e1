// How functions of a name are found among the declarations of a source (ECMA-372, 10.4).
ghost use Rattle.std.specs.Prelude.{◌≡◌};
ghost use Rattle.cc_terms.specs.Resolving.{Finds};

use cc_base::Name;

/// The declarations of a source, among which functions are found by their names.
pub trait Finder {
    ghost finds: { Self → Finds };

    /// The number of the declaration that a plain name means at a place, which is a place in the source's bytes and the scope
    /// around it, if it is the declaration of a function. Variables of functions are no declarations here.
    fn find(&self, scope: u32, at: u32, name: &Name) -> Option<u32>
        ensures { result ≡ finds self.now scope at name.now };
}
