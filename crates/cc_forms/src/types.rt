// Types that are built (ECMA-372, 12.1).
ghost use Rattle.std.specs.Prelude.{◌≡◌};
ghost use Rattle.cc_forms.specs.Forms.{found, type_form, is_library_name, is_console};

use cc_base::Span;
use cc_tree::TypeName;

/// Whether a name is the library's of a fundamental type.
fn is_library_name(name: &[u8]) -> bool
    ensures { result ≡ is_library_name name.now }
{
    name == b"Boolean".as_slice()
        || name == b"Char".as_slice()
        || name == b"SByte".as_slice()
        || name == b"Byte".as_slice()
        || name == b"Int16".as_slice()
        || name == b"UInt16".as_slice()
        || name == b"Int32".as_slice()
        || name == b"UInt32".as_slice()
        || name == b"Int64".as_slice()
        || name == b"UInt64".as_slice()
}

/// A fundamental type, or the first node that isn't one.
pub(crate) fn type_name(of: &TypeName) -> Result<(), Span>
    ensures { found result ≡ type_form of.now }
{
    match of {
        TypeName::Fundamental(_, _) => Ok(()),
        TypeName::Named(_, name, arguments, span) => {
            if arguments.is_empty() && is_library_name(name.name.as_slice()) {
                Ok(())
            } else {
                Err(*span)
            }
        }
        TypeName::Marked(_, _, _, span) => Err(*span),
    }
}

/// Whether a type is the class `Console` of the library.
pub(crate) fn is_console(of: &TypeName) -> bool
    ensures { result ≡ is_console of.now }
{
    match of {
        TypeName::Fundamental(_, _) => false,
        TypeName::Named(_, name, arguments, _) => {
            arguments.is_empty() && name.name.as_slice() == b"Console".as_slice()
        }
        TypeName::Marked(_, _, _, _) => false,
    }
}
