// The members of System.Console that programs call, as rows of MemberRef (ECMA-335, II.22.25).
ghost use Rattle.std.specs.Prelude.{◌≡◌, ◌++◌, ◌∷◌, [], IfOk, OnOk};
ghost use Rattle.cc_emit.specs.Program.{static_method, void};
ghost use Rattle.cc_module.specs.Signatures.{HasSpelling, IsType};
ghost use Rattle.cc_functions.specs.Program as spec;

use crate::signatures::{blob_of, one_type, static_method, type_of};
use cc_base::List;
use cc_module::{Element, MemberRefParent, MemberRefRow, TypeSignature};
use std::alloc::{AllocError, Global};

// A member with parameters of these types, which gives nothing.
fn member_row(
    alloc: Global,
    name: &[u8],
    parameters: List<TypeSignature>,
) -> Result<MemberRefRow, AllocError>
    requires { HasSpelling (static_method void parameters) }
    ensures { IfOk result (λ row. row ≡ spec.member_row name.now parameters) }
{
    let void = type_of(alloc, &[Element::Void])?;
    let name = List::from_slice(alloc, name)?;
    let signature = blob_of(alloc, &static_method(void, parameters))?;
    Ok(MemberRefRow {
        class: MemberRefParent::TypeRef(1),
        name,
        signature,
    })
}

// The member that prints a value of a type.
fn printing_row(alloc: Global, name: &[u8], of: Element) -> Result<MemberRefRow, AllocError>
    requires { IsType (record { elements = of ∷ [] }) }
    ensures { IfOk result (λ row. row ≡ spec.printing_row name.now of) }
{
    let parameters = one_type(alloc, &[of])?;
    member_row(alloc, name, parameters)
}

// The members of a name that print one value, in the order of the types.
fn append_printing(
    alloc: Global,
    rows: &mut List<MemberRefRow>,
    name: &[u8],
) -> Result<(), AllocError>
    ensures { OnOk result (rows.new ≡ rows.old ++ spec.printing name.now) }
{
    rows.push(printing_row(alloc, name, Element::Boolean)?)?;
    rows.push(printing_row(alloc, name, Element::Char)?)?;
    rows.push(printing_row(alloc, name, Element::I4)?)?;
    rows.push(printing_row(alloc, name, Element::U4)?)?;
    rows.push(printing_row(alloc, name, Element::I8)?)?;
    rows.push(printing_row(alloc, name, Element::U8)?)?;
    Ok(())
}

/// All members: `Write` and `WriteLine` of each type that is printed, and `WriteLine` without a value.
pub fn console_members(alloc: Global) -> Result<List<MemberRefRow>, AllocError>
    ensures { IfOk result (λ rows. rows ≡ spec.console_members) }
{
    let mut rows = List::new(alloc);
    append_printing(alloc, &mut rows, b"Write")?;
    append_printing(alloc, &mut rows, b"WriteLine")?;
    let last = member_row(alloc, b"WriteLine", List::new(alloc))?;
    rows.push(last)?;
    Ok(rows)
}
