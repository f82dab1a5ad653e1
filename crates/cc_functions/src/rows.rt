// The rows that each program has (ECMA-335, II.22), a list for each table.
ghost use Rattle.std.specs.Prelude.{◌≡◌, [], ◌∷◌, IfOk};
ghost use Rattle.cc_emit.specs.Program as spec;

use cc_base::List;
use cc_module::{
    AssemblyRefRow, AssemblyRow, FieldIndex, MethodDefIndex, ModuleRow, ResolutionScope,
    TypeDefOrRef, TypeDefRow, TypeRefRow, Version,
};
use std::alloc::{AllocError, Global};

/// The eight last bytes of the hash of the library's public key.
const LIBRARY_TOKEN: [u8; 8] = [0xB7, 0x7A, 0x5C, 0x56, 0x19, 0x34, 0xE0, 0x89];

// A list of one row.
fn one<T: Drop>(alloc: Global, row: T) -> Result<List<T>, AllocError>
    ensures { IfOk result (λ rows. rows ≡ row ∷ []) }
{
    let mut rows = List::new(alloc);
    rows.push(row)?;
    Ok(rows)
}

fn version(major: u16) -> Version
    ensures { result ≡ record { major = major; minor = 0; build = 0; revision = 0 } }
{
    Version {
        major,
        minor: 0,
        build: 0,
        revision: 0,
    }
}

/// The row of Module.
pub fn modules(alloc: Global) -> Result<List<ModuleRow>, AllocError>
    ensures { IfOk result (λ rows. rows ≡ spec.module_row ∷ []) }
{
    let name = List::from_slice(alloc, b"program.exe")?;
    one(alloc, ModuleRow { name })
}

/// The class of the library whose members a program calls.
pub fn type_refs(alloc: Global) -> Result<List<TypeRefRow>, AllocError>
    ensures { IfOk result (λ rows. rows ≡ spec.console_row ∷ []) }
{
    let name = List::from_slice(alloc, b"Console")?;
    let namespace = List::from_slice(alloc, b"System")?;
    let scope = ResolutionScope::AssemblyRef(1);
    one(
        alloc,
        TypeRefRow {
            scope,
            name,
            namespace,
        },
    )
}

/// The type that has the functions outside classes.
pub fn type_defs(alloc: Global) -> Result<List<TypeDefRow>, AllocError>
    ensures { IfOk result (λ rows. rows ≡ spec.globals_row ∷ []) }
{
    let name = List::from_slice(alloc, b"<Module>")?;
    let row = TypeDefRow {
        flags: 0,
        name,
        namespace: List::new(alloc),
        extends: TypeDefOrRef::TypeDef(0),
        fields: FieldIndex(1),
        methods: MethodDefIndex(1),
    };
    one(alloc, row)
}

/// The row of Assembly.
pub fn assemblies(alloc: Global) -> Result<List<AssemblyRow>, AllocError>
    ensures { IfOk result (λ rows. rows ≡ spec.assembly_row ∷ []) }
{
    let name = List::from_slice(alloc, b"program")?;
    let version = version(0);
    one(alloc, AssemblyRow { version, name })
}

/// The assembly of the library.
pub fn assembly_refs(alloc: Global) -> Result<List<AssemblyRefRow>, AllocError>
    ensures { IfOk result (λ rows. rows ≡ spec.library_row ∷ []) }
{
    let token = List::from_slice(alloc, &LIBRARY_TOKEN)?;
    let name = List::from_slice(alloc, b"mscorlib")?;
    let version = version(4);
    one(
        alloc,
        AssemblyRefRow {
            version,
            token,
            name,
        },
    )
}
