//! Writes WebAssembly components in the component model's binary format.
//!
//! `ComponentBuilder` collects items call by call and returns their indices; `build` runs commands,
//! which are builder calls as data; `Component` and the sections write a component section by
//! section. No number that is written exceeds 4294967295: an index, the number of items of a space
//! or a section, the number of bytes of a string or a section.
//!
//! In the examples `alloc` is an allocator that is `Copy`. Each is proved, with its imports, in
//! `src/examples` of a crate `crates/proved_*`.
#![tactic(auto)]

pub mod command;
pub mod laws;
mod of_item;
mod of_producers;

pub use command::{Built, Command, Running, build};
pub use of_producers::producers_command;
pub use wenc_base::{
    AbstractHeapType, ArrayType, CompositeType, CoreTypeEncoder, CustomSection, Delimited, Encode,
    EntityType, ExportKind, Fault, FieldType, FuncType, GlobalType, GroupTree, HeapType, Holder,
    MemoryType, Module, NameMap, Parent, ProducersField, ProducersSection, RawCustomSection,
    RawSection, RefType, Section, SectionId, StorageType, StructType, SubType, TableType, TagType,
    ValType, encode_list, encoding_size, section_size,
};
pub use wenc_builder::{ComponentBuilder, Space};
pub use wenc_canon::{AddsBuiltin, AddsSlot, CanonicalFunctionSection, CanonicalOption};
pub use wenc_list::{ItemTree, ListFault, ListedSection, Listing, SectionItems, Sections, list};
pub use wenc_parts::{
    Alias, AliasTree, Component, ComponentExportKind, ComponentExternName, ComponentOuterAliasKind,
    ComponentSection, ComponentSectionId, ComponentTypeRef, ComponentValType, ModuleArg,
    NameOptions, NameTree, PrimitiveValType, TypeBounds,
};
pub use wenc_sections::{
    CanonOf, CanonTree, ComponentAliasSection, ComponentExportSection, ComponentImportSection,
    ComponentInstanceSection, ComponentNameSection, ComponentStartSection, ComponentTypeSection,
    CoreInstanceTree, CoreTypeSection, InstanceSection, InstanceTree, ModuleSection,
    NestedComponentSection,
};
pub use wenc_types::{
    CaseTree, ComponentCoreTypeEncoder, ComponentDecl, ComponentDefinedTypeEncoder,
    ComponentFuncTypeEncoder, ComponentType, ComponentTypeEncoder, CoreTypeTree, DefinedTree,
    FuncStage, InstanceDecl, InstanceType, ModuleDecl, ModuleType, TypeTree,
};
