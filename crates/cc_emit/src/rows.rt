// The rows of the module of a straight program (ECMA-335, II.22), a list for each table.
ghost use Rattle.std.specs.Prelude.{◌≡◌, ◌≤◌, [], ◌∷◌, length, IfOk};
ghost use Rattle.cc_emit.specs.Program as spec;

use crate::bodies::{FIRST_BODY, start_place};
use crate::signatures::{main_blob, start_blob, write_line_blob};
use cc_base::List;
use cc_module::{
    AssemblyRefRow, AssemblyRow, Blob, FieldIndex, MemberRefParent, MemberRefRow, MethodDefIndex,
    MethodDefRow, ModuleRow, ParamIndex, ResolutionScope, TypeDefOrRef, TypeDefRow, TypeRefRow,
    Version,
};
use std::alloc::{AllocError, Global};

/// The eight last bytes of the hash of the library's public key.
const LIBRARY_TOKEN: [u8; 8] = [0xB7, 0x7A, 0x5C, 0x56, 0x19, 0x34, 0xE0, 0x89];

/// Public and static (II.23.1.10).
const PUBLIC_STATIC: u16 = 0x16;

// A list of one row.
fn one<T: Drop>(alloc: Global, row: T) -> Result<List<T>, AllocError>
    ensures { IfOk result (λ rows. rows ≡ row ∷ []) }
{
    let mut rows = List::new(alloc);
    rows.push(row)?;
    Ok(rows)
}

fn version(major: u16) -> Version
    ensures { result ≡ record { major = major; minor = 0; build = 0; revision = 0 } }
{
    Version {
        major,
        minor: 0,
        build: 0,
        revision: 0,
    }
}

/// The row of Module.
pub fn modules(alloc: Global) -> Result<List<ModuleRow>, AllocError>
    ensures { IfOk result (λ rows. rows ≡ spec.module_row ∷ []) }
{
    let name = List::from_slice(alloc, b"program.exe")?;
    one(alloc, ModuleRow { name })
}

/// The type of the library that a straight program uses.
pub fn type_refs(alloc: Global) -> Result<List<TypeRefRow>, AllocError>
    ensures { IfOk result (λ rows. rows ≡ spec.console_row ∷ []) }
{
    let name = List::from_slice(alloc, b"Console")?;
    let namespace = List::from_slice(alloc, b"System")?;
    let scope = ResolutionScope::AssemblyRef(1);
    one(
        alloc,
        TypeRefRow {
            scope,
            name,
            namespace,
        },
    )
}

/// The type that has the functions outside classes.
pub fn type_defs(alloc: Global) -> Result<List<TypeDefRow>, AllocError>
    ensures { IfOk result (λ rows. rows ≡ spec.globals_row ∷ []) }
{
    let name = List::from_slice(alloc, b"<Module>")?;
    let row = TypeDefRow {
        flags: 0,
        name,
        namespace: List::new(alloc),
        extends: TypeDefOrRef::TypeDef(0),
        fields: FieldIndex(1),
        methods: MethodDefIndex(1),
    };
    one(alloc, row)
}

// The row of a method without names of parameters.
fn method_row(
    alloc: Global,
    rva: u32,
    name: &[u8],
    signature: Blob,
) -> Result<MethodDefRow, AllocError>
    ensures { IfOk result (λ row. row ≡ record { rva = rva; flags = spec.PUBLIC_STATIC; name = name.now; signature = signature; parameters = record { 0 = 1 } }) }
{
    let name = List::from_slice(alloc, name)?;
    Ok(MethodDefRow {
        rva,
        flags: PUBLIC_STATIC,
        name,
        signature,
        parameters: ParamIndex(1),
    })
}

/// `main`, with this code, and `<start>`.
pub fn methods(alloc: Global, code: &[u8]) -> Result<List<MethodDefRow>, AllocError>
    requires { length code.now ≤ spec.code_limit }
    ensures { IfOk result (λ rows. rows ≡ spec.main_row ∷ spec.start_row code.now ∷ []) }
{
    let main = method_row(alloc, FIRST_BODY, b"main", main_blob(alloc)?)?;
    let place = start_place(code);
    let start = method_row(alloc, place, b"<start>", start_blob(alloc)?)?;
    let mut rows = one(alloc, main)?;
    rows.push(start)?;
    Ok(rows)
}

/// The function of the library that a straight program calls.
pub fn member_refs(alloc: Global) -> Result<List<MemberRefRow>, AllocError>
    ensures { IfOk result (λ rows. rows ≡ spec.write_line_row ∷ []) }
{
    let name = List::from_slice(alloc, b"WriteLine")?;
    let signature = write_line_blob(alloc)?;
    let class = MemberRefParent::TypeRef(1);
    one(
        alloc,
        MemberRefRow {
            class,
            name,
            signature,
        },
    )
}

/// The row of Assembly.
pub fn assemblies(alloc: Global) -> Result<List<AssemblyRow>, AllocError>
    ensures { IfOk result (λ rows. rows ≡ spec.assembly_row ∷ []) }
{
    let name = List::from_slice(alloc, b"program")?;
    let version = version(0);
    one(alloc, AssemblyRow { version, name })
}

/// The assembly of the library.
pub fn assembly_refs(alloc: Global) -> Result<List<AssemblyRefRow>, AllocError>
    ensures { IfOk result (λ rows. rows ≡ spec.library_row ∷ []) }
{
    let token = List::from_slice(alloc, &LIBRARY_TOKEN)?;
    let name = List::from_slice(alloc, b"mscorlib")?;
    let version = version(4);
    one(
        alloc,
        AssemblyRefRow {
            version,
            token,
            name,
        },
    )
}
