// Modules: the rows of the metadata tables, method bodies and user strings (ECMA-335, II.22 and II.24).
ghost use Rattle.std.specs.Prelude.{◌≡◌, ◌≤◌, ◌<◌, ◌^◌, ◌+◌, ℕ, length, Some, IfSome, IfNone};
ghost use Rattle.cc_module.specs.Methods.{NamesMethod, body_count, body_place, body_of};
ghost use Rattle.cc_module.specs.Rows.{row_count};

use crate::rows::{
    AssemblyRefRow, AssemblyRow, ConstantRow, FieldRow, GenericParamConstraintRow, GenericParamRow,
    InterfaceImplRow, MemberRefRow, MethodDefRow, MethodImplRow, MethodSemanticsRow, MethodSpecRow,
    ModuleRow, ParamRow, PropertyMapRow, PropertyRow, StandAloneSigRow, TypeDefRow, TypeRefRow,
    TypeSpecRow,
};
use crate::table::Table;
use cc_base::{List, Text};
use cc_cil::Body;

/// A module: a list of rows for each table, in the order of the tables' numbers.
#[derive(Debug, Drop)]
pub struct Module {
    pub modules: List<ModuleRow>,
    pub type_refs: List<TypeRefRow>,
    pub type_defs: List<TypeDefRow>,
    pub fields: List<FieldRow>,
    pub methods: List<MethodDefRow>,
    pub params: List<ParamRow>,
    pub interface_impls: List<InterfaceImplRow>,
    pub member_refs: List<MemberRefRow>,
    pub constants: List<ConstantRow>,
    pub stand_alone_sigs: List<StandAloneSigRow>,
    pub property_maps: List<PropertyMapRow>,
    pub properties: List<PropertyRow>,
    pub method_semantics: List<MethodSemanticsRow>,
    pub method_impls: List<MethodImplRow>,
    pub type_specs: List<TypeSpecRow>,
    pub assemblies: List<AssemblyRow>,
    pub assembly_refs: List<AssemblyRefRow>,
    pub generic_params: List<GenericParamRow>,
    pub method_specs: List<MethodSpecRow>,
    pub generic_param_constraints: List<GenericParamConstraintRow>,
    /// The bodies of the methods that have one, in the order of these methods.
    pub bodies: List<Body>,
    /// The user strings, in the order of `#US` (II.24.2.4).
    pub texts: List<Text>,
    /// The token of the method that a run begins with (II.25.3.3).
    pub entry: u32,
}

/// A method of a module.
#[derive(Clone, Copy, Debug, PartialEq, Eq)]
pub struct MethodPlace {
    /// Its row of MethodDef, from 1.
    pub row: u32,
    /// The place of its body in `bodies`, from 0, where it has one.
    pub body: Option<u32>,
}

// The number of methods that say that they have a body.
fn count_bodies(methods: &[MethodDefRow]) -> usize
    ensures count { result ≡ body_count methods.now }
    ensures within { result ≤ length methods.now }
{
    methods.iter().filter(|method| method.rva != 0).count()
}

// The place of a method's body, where so many methods with a body stand before it.
fn body_place(method: &MethodDefRow, before: u32, bodies: usize) -> Option<u32>
    ensures { result ≡ body_place (Some method.now) before bodies }
{
    if method.rva != 0 && (before as usize) < bodies {
        Some(before)
    } else {
        None
    }
}

// The row of MethodDef that a token names, `None` where it names no row of that table.
fn method_row(token: u32) -> Option<u32>
    ensures row { IfSome result (λ row. (1 ≤ row) × (row < 2 ^ 24) × (token ≡ 0x06000000 + row)) }
    ensures none { IfNone result ((row : ℕ) → 1 ≤ row → row < 2 ^ 24 → token ≡ 0x06000000 + row → ⊥) }
{
    let row = token % 0x0100_0000;
    if token / 0x0100_0000 == 0x06 && row != 0 {
        Some(row)
    } else {
        None
    }
}

impl Module {
    /// The number of rows of a table (II.24.2.6).
    pub fn row_count(&self, table: Table) -> usize
        ensures { result ≡ row_count self.now table }
    {
        match table {
            Table::Module => self.modules.len(),
            Table::TypeRef => self.type_refs.len(),
            Table::TypeDef => self.type_defs.len(),
            Table::Field => self.fields.len(),
            Table::MethodDef => self.methods.len(),
            Table::Param => self.params.len(),
            Table::InterfaceImpl => self.interface_impls.len(),
            Table::MemberRef => self.member_refs.len(),
            Table::Constant => self.constants.len(),
            Table::StandAloneSig => self.stand_alone_sigs.len(),
            Table::PropertyMap => self.property_maps.len(),
            Table::Property => self.properties.len(),
            Table::MethodSemantics => self.method_semantics.len(),
            Table::MethodImpl => self.method_impls.len(),
            Table::TypeSpec => self.type_specs.len(),
            Table::Assembly => self.assemblies.len(),
            Table::AssemblyRef => self.assembly_refs.len(),
            Table::GenericParam => self.generic_params.len(),
            Table::MethodSpec => self.method_specs.len(),
            Table::GenericParamConstraint => self.generic_param_constraints.len(),
        }
    }

    /// The method that a token names (II.22.26), `None` exactly where it names no row of MethodDef. A method has a body
    /// where its RVA isn't 0 and fewer such methods stand before it than there are bodies. It takes no memory.
    pub fn method_of(&self, token: u32) -> Option<MethodPlace>
        ensures row { IfSome result (λ place. NamesMethod self.now token place.row) }
        ensures body { IfSome result (λ place. place.body ≡ body_of self.now place.row) }
        ensures none { IfNone result ((row : ℕ) → NamesMethod self.now token row → ⊥) }
    {
        let row = method_row(token)?;
        let methods = self.methods.as_slice();
        if row as usize > methods.len() {
            return None;
        }
        let at = row as usize - 1;
        let before = count_bodies(&methods[..at]) as u32;
        let body = body_place(&methods[at], before, self.bodies.len());
        Some(MethodPlace { row, body })
    }
}
