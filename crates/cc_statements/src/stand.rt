// What stands around a statement.
ghost use Rattle.std.specs.Prelude.{◌≡◌};
ghost use Rattle.cc_statements.specs.Steps as spec;

/// What stands around a statement: whether a `break` in it is aimed at something, whether a `continue` is, and whether it may
/// declare variables.
#[derive(Clone, Copy, Debug, PartialEq, Eq)]
pub struct Stand {
    pub breaks: bool,
    pub continues: bool,
    pub declares: bool,
}

/// In a scope.
pub(crate) fn inside(stand: Stand) -> Stand
    ensures { result ≡ spec.inside stand }
{
    Stand {
        breaks: stand.breaks,
        continues: stand.continues,
        declares: true,
    }
}

/// In a loop.
pub(crate) fn in_loop(stand: Stand) -> Stand
    ensures { result ≡ spec.in_loop stand }
{
    Stand {
        breaks: true,
        continues: true,
        declares: stand.declares,
    }
}

/// In a section of a switch, the last one or not.
pub(crate) fn in_section(is_last: bool, stand: Stand) -> Stand
    ensures { result ≡ spec.in_section is_last stand }
{
    Stand {
        breaks: true,
        continues: stand.continues,
        declares: is_last,
    }
}
