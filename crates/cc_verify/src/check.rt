// What is tested of the rows of a module's tables, in order (ECMA-335, II.22).
use cc_module::Table;

/// A test of a row (ECMA-335, II.22).
#[derive(Clone, Copy, Debug, PartialEq, Eq)]
pub enum Check {
    /// It is row 1.
    FirstType,
    /// It is not there: the machine has no such rows.
    NoRow,
    /// The machine has the types of the method.
    MethodTypes,
    /// The machine has the type and the signature of the member that is referred to.
    ReferenceTypes,
    /// The machine has the types of the local variables.
    LocalTypes,
    /// It extends no class.
    NoBase,
    /// It has another name or another signature than each method before it.
    NewMethod,
    /// Its flags are those of a type.
    TypeFlags,
    /// It is a static method, by its flags and its signature.
    StaticMethod,
    /// Its signature is that of a method or of a field.
    ReferenceKind,
    /// Its signature is that of local variables.
    LocalsKind,
    /// It names a class of the library.
    LibraryClass,
    /// Its lists begin at row 1.
    ListStarts,
    /// What the method, its signature and its body name is there.
    MethodNames,
    /// It names a member of the library.
    LibraryMember,
    /// No local variable is void.
    LocalsWithoutVoid,
    /// It has a body, and is no constructor.
    MethodBody,
}

/// A rule on the rows of a table: its number, and the test.
#[derive(Clone, Copy, Debug, PartialEq, Eq)]
pub struct ClassRule {
    pub rule: u8,
    pub table: Table,
    pub check: Check,
}

/// The rules up to 4, in order, each by table. Rule 0 leaves out what the machine does not have.
pub const ROW_RULES: [ClassRule; 26] = [
    ClassRule {
        rule: 0,
        table: Table::TypeDef,
        check: Check::FirstType,
    },
    ClassRule {
        rule: 0,
        table: Table::Field,
        check: Check::NoRow,
    },
    ClassRule {
        rule: 0,
        table: Table::MethodDef,
        check: Check::MethodTypes,
    },
    ClassRule {
        rule: 0,
        table: Table::InterfaceImpl,
        check: Check::NoRow,
    },
    ClassRule {
        rule: 0,
        table: Table::MemberRef,
        check: Check::ReferenceTypes,
    },
    ClassRule {
        rule: 0,
        table: Table::Constant,
        check: Check::NoRow,
    },
    ClassRule {
        rule: 0,
        table: Table::StandAloneSig,
        check: Check::LocalTypes,
    },
    ClassRule {
        rule: 0,
        table: Table::PropertyMap,
        check: Check::NoRow,
    },
    ClassRule {
        rule: 0,
        table: Table::Property,
        check: Check::NoRow,
    },
    ClassRule {
        rule: 0,
        table: Table::MethodSemantics,
        check: Check::NoRow,
    },
    ClassRule {
        rule: 0,
        table: Table::MethodImpl,
        check: Check::NoRow,
    },
    ClassRule {
        rule: 0,
        table: Table::TypeSpec,
        check: Check::NoRow,
    },
    ClassRule {
        rule: 0,
        table: Table::GenericParam,
        check: Check::NoRow,
    },
    ClassRule {
        rule: 0,
        table: Table::MethodSpec,
        check: Check::NoRow,
    },
    ClassRule {
        rule: 0,
        table: Table::GenericParamConstraint,
        check: Check::NoRow,
    },
    ClassRule {
        rule: 1,
        table: Table::TypeDef,
        check: Check::NoBase,
    },
    ClassRule {
        rule: 2,
        table: Table::MethodDef,
        check: Check::NewMethod,
    },
    ClassRule {
        rule: 3,
        table: Table::TypeDef,
        check: Check::TypeFlags,
    },
    ClassRule {
        rule: 3,
        table: Table::MethodDef,
        check: Check::StaticMethod,
    },
    ClassRule {
        rule: 3,
        table: Table::MemberRef,
        check: Check::ReferenceKind,
    },
    ClassRule {
        rule: 3,
        table: Table::StandAloneSig,
        check: Check::LocalsKind,
    },
    ClassRule {
        rule: 4,
        table: Table::TypeRef,
        check: Check::LibraryClass,
    },
    ClassRule {
        rule: 4,
        table: Table::TypeDef,
        check: Check::ListStarts,
    },
    ClassRule {
        rule: 4,
        table: Table::MethodDef,
        check: Check::MethodNames,
    },
    ClassRule {
        rule: 4,
        table: Table::MemberRef,
        check: Check::LibraryMember,
    },
    ClassRule {
        rule: 4,
        table: Table::StandAloneSig,
        check: Check::LocalsWithoutVoid,
    },
];

/// Rule 12.
pub const BODY_RULES: [ClassRule; 1] = [ClassRule {
    rule: 12,
    table: Table::MethodDef,
    check: Check::MethodBody,
}];
