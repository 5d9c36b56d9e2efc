//! Two values are equal if and only if they are the same value, and section ids are ordered by
//! their numbers.
ghost use Rattle.std.specs.Prelude.{◌≡◌, ◌↔◌, IsTrue, nat_lt};
ghost use Rattle.std.specs.Ordering.{nat_cmp};
ghost use Rattle.wenc_base.specs.Prelude.{func_type_view, structure_view, composite_view, sub_view};
ghost use Rattle.wenc_base.specs.Prelude.{rec_type_view};
ghost use Rattle.wenc_parts.specs.Prelude.{section_number};
ghost use Rattle.wenc_sections.specs.Prelude.{canon_view};
ghost use Rattle.wenc_types.specs.Prelude.{core_type_view, module_declaration_view, case_view};
ghost use Rattle.wenc_types.specs.Prelude.{defined_view};

use std::alloc::Allocator;
use std::cmp::Ordering;
use wenc_base::{
    AbstractHeapType, ArrayType, CompositeType, EntityType, ExportKind, Fault, FieldType, FuncType,
    GlobalType, GroupTree, HeapType, MemoryType, RefType, SectionId, StorageType, StructType,
    SubType, TableType, TagType, ValType,
};
use wenc_builder::Space;
use wenc_canon::CanonicalOption;
use wenc_parts::{
    ComponentExportKind, ComponentOuterAliasKind, ComponentSectionId, ComponentTypeRef,
    ComponentValType, ModuleArg, PrimitiveValType, ResultList, TypeBounds,
};
use wenc_read::{NestedRefusal, Refusal};
use wenc_sections::CanonTree;
use wenc_types::{CaseTree, CoreTypeTree, DefinedTree, FuncStage, ModuleDecl};

pub fn kinds_of_core_exports(one: ExportKind, other: ExportKind) -> bool
    ensures { IsTrue result ↔ (one ≡ other) }
{
    one == other
}

pub fn core_value_types(one: ValType, other: ValType) -> bool
    ensures { IsTrue result ↔ (one ≡ other) }
{
    one == other
}

pub fn reference_types(one: RefType, other: RefType) -> bool
    ensures { IsTrue result ↔ (one ≡ other) }
{
    one == other
}

pub fn heap_types(one: HeapType, other: HeapType) -> bool
    ensures { IsTrue result ↔ (one ≡ other) }
{
    one == other
}

pub fn abstract_heap_types(one: AbstractHeapType, other: AbstractHeapType) -> bool
    ensures { IsTrue result ↔ (one ≡ other) }
{
    one == other
}

pub fn storage_types(one: StorageType, other: StorageType) -> bool
    ensures { IsTrue result ↔ (one ≡ other) }
{
    one == other
}

#[tactic(auto, using(crate::proofs::Equalities::fields))]
pub fn field_types(one: FieldType, other: FieldType) -> bool
    ensures { IsTrue result ↔ (one ≡ other) }
{
    one == other
}

#[tactic(auto, using(crate::proofs::Equalities::arrays))]
pub fn array_types(one: ArrayType, other: ArrayType) -> bool
    ensures { IsTrue result ↔ (one ≡ other) }
{
    one == other
}

#[tactic(auto, using(crate::proofs::Equalities::tables))]
pub fn table_types(one: TableType, other: TableType) -> bool
    ensures { IsTrue result ↔ (one ≡ other) }
{
    one == other
}

pub fn memory_types(one: MemoryType, other: MemoryType) -> bool
    ensures { IsTrue result ↔ (one ≡ other) }
{
    one == other
}

#[tactic(auto, using(crate::proofs::Equalities::globals))]
pub fn global_types(one: GlobalType, other: GlobalType) -> bool
    ensures { IsTrue result ↔ (one ≡ other) }
{
    one == other
}

pub fn tag_types(one: TagType, other: TagType) -> bool
    ensures { IsTrue result ↔ (one ≡ other) }
{
    one == other
}

#[tactic(auto, using(crate::proofs::Equalities::entities))]
pub fn entity_types(one: EntityType, other: EntityType) -> bool
    ensures { IsTrue result ↔ (one ≡ other) }
{
    one == other
}

pub fn function_types<A: Allocator>(one: &FuncType<A>, other: &FuncType<A>) -> bool
    ensures { IsTrue result ↔ (func_type_view one.now ≡ func_type_view other.now) }
{
    one == other
}

pub fn structure_types<A: Allocator>(one: &StructType<A>, other: &StructType<A>) -> bool
    ensures { IsTrue result ↔ (structure_view one.now ≡ structure_view other.now) }
{
    one == other
}

pub fn composite_types<A: Allocator>(one: &CompositeType<A>, other: &CompositeType<A>) -> bool
    ensures { IsTrue result ↔ (composite_view one.now ≡ composite_view other.now) }
{
    one == other
}

pub fn sub_types<A: Allocator>(one: &SubType<A>, other: &SubType<A>) -> bool
    ensures { IsTrue result ↔ (sub_view one.now ≡ sub_view other.now) }
{
    one == other
}

pub fn groups_of_types<A: Allocator>(one: &GroupTree<A>, other: &GroupTree<A>) -> bool
    ensures { IsTrue result ↔ (rec_type_view one.now ≡ rec_type_view other.now) }
{
    one == other
}

pub fn declarations_of_modules<A: Allocator>(one: &ModuleDecl<A>, other: &ModuleDecl<A>) -> bool
    ensures { IsTrue result
        ↔ (module_declaration_view one.now ≡ module_declaration_view other.now) }
{
    one == other
}

pub fn core_types<A: Allocator>(one: &CoreTypeTree<A>, other: &CoreTypeTree<A>) -> bool
    ensures { IsTrue result ↔ (core_type_view one.now ≡ core_type_view other.now) }
{
    one == other
}

pub fn stages_of_functions(one: FuncStage, other: FuncStage) -> bool
    ensures { IsTrue result ↔ (one ≡ other) }
{
    one == other
}

pub fn cases_of_variants<A: Allocator>(one: &CaseTree<A>, other: &CaseTree<A>) -> bool
    ensures { IsTrue result ↔ (case_view one.now ≡ case_view other.now) }
{
    one == other
}

pub fn defined_types<A: Allocator>(one: &DefinedTree<A>, other: &DefinedTree<A>) -> bool
    ensures { IsTrue result ↔ (defined_view one.now ≡ defined_view other.now) }
{
    one == other
}

pub fn faults(one: Fault, other: Fault) -> bool
    ensures { IsTrue result ↔ (one ≡ other) }
{
    one == other
}

pub fn ids_of_sections(one: ComponentSectionId, other: ComponentSectionId) -> bool
    ensures { IsTrue result ↔ (one ≡ other) }
{
    one == other
}

pub fn kinds_of_outer_aliases(one: ComponentOuterAliasKind, other: ComponentOuterAliasKind) -> bool
    ensures { IsTrue result ↔ (one ≡ other) }
{
    one == other
}

pub fn kinds_of_exports(one: ComponentExportKind, other: ComponentExportKind) -> bool
    ensures { IsTrue result ↔ (one ≡ other) }
{
    one == other
}

pub fn arguments_of_core_modules(one: ModuleArg, other: ModuleArg) -> bool
    ensures { IsTrue result ↔ (one ≡ other) }
{
    one == other
}

pub fn bounds_of_types(one: TypeBounds, other: TypeBounds) -> bool
    ensures { IsTrue result ↔ (one ≡ other) }
{
    one == other
}

pub fn type_references(one: ComponentTypeRef, other: ComponentTypeRef) -> bool
    ensures { IsTrue result ↔ (one ≡ other) }
{
    one == other
}

pub fn primitive_types(one: PrimitiveValType, other: PrimitiveValType) -> bool
    ensures { IsTrue result ↔ (one ≡ other) }
{
    one == other
}

pub fn value_types(one: ComponentValType, other: ComponentValType) -> bool
    ensures { IsTrue result ↔ (one ≡ other) }
{
    one == other
}

pub fn result_lists(one: ResultList, other: ResultList) -> bool
    ensures { IsTrue result ↔ (one ≡ other) }
{
    one == other
}

pub fn canonical_options(one: CanonicalOption, other: CanonicalOption) -> bool
    ensures { IsTrue result ↔ (one ≡ other) }
{
    one == other
}

pub fn canonical_functions<A: Allocator>(one: &CanonTree<A>, other: &CanonTree<A>) -> bool
    ensures { IsTrue result ↔ (canon_view one.now ≡ canon_view other.now) }
{
    one == other
}

pub fn lesser_ids_of_sections(one: ComponentSectionId, other: ComponentSectionId) -> bool
    ensures { result ≡ nat_lt (section_number one) (section_number other) }
{
    one < other
}

pub fn ordered_ids_of_sections(one: ComponentSectionId, other: ComponentSectionId) -> Ordering
    ensures { result ≡ nat_cmp (section_number one) (section_number other) }
{
    one.cmp(&other)
}

pub fn ids_of_core_sections(one: SectionId, other: SectionId) -> bool
    ensures { IsTrue result ↔ (one ≡ other) }
{
    one == other
}

pub fn spaces(one: Space, other: Space) -> bool
    ensures { IsTrue result ↔ (one ≡ other) }
{
    one == other
}

pub fn refusals(one: Refusal, other: Refusal) -> bool
    ensures { IsTrue result ↔ (one ≡ other) }
{
    one == other
}

pub fn nested_refusals(one: NestedRefusal, other: NestedRefusal) -> bool
    ensures { IsTrue result ↔ (one ≡ other) }
{
    one == other
}
