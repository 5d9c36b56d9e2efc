//! The foundation of everything that writes WebAssembly components: numbers, strings, lists,
//! errors, the traits `Encode` and `Delimited`, the holder of a section's members, core types,
//! custom sections and modules.
//!
//!
//! Indices, lengths of strings and lists, counts and sizes are encoded as 32-bit numbers, at most
//! 4294967295. What would exceed that is an error: `Fault::TooMany` for too many values or members,
//! `Fault::TooLarge` for too many bytes. Each call that allocates may also fail with
//! `Fault::Memory`.
#![tactic(auto)]

pub mod custom;
pub mod delimited;
pub mod encode;
pub mod exports;
pub mod fault;
pub mod globals;
pub mod holder;
pub mod imports;
mod limits;
pub mod memories;
pub mod modules;
pub mod names;
pub mod number;
pub mod parent;
pub mod producers;
pub mod raw;
pub mod section;
pub mod short;
pub mod tables;
pub mod tags;
pub mod types;

pub use custom::{CustomSection, RawCustomSection};
pub use delimited::{Delimited, DelimitedEq};
pub use encode::{
    ByRef, Encode, Named, Prefix, Tagged, Verbatim, WithSize, encode_byte, encode_list,
    extend_in_room,
};
pub use exports::ExportKind;
pub use fault::Fault;
pub use globals::GlobalType;
pub use holder::{Holder, section_size};
pub use imports::EntityType;
pub use memories::MemoryType;
pub use modules::Module;
pub use names::NameMap;
pub use number::encoding_size;
pub use parent::Parent;
pub use producers::{ProducersField, ProducersSection};
pub use raw::RawSection;
pub use section::{Section, SectionId};
pub use short::Short;
pub use tables::TableType;
pub use tags::TagType;
pub use types::{
    AbstractHeapType, ArrayType, ByteTypes, CompositeType, CoreTypeEncoder, FieldType, FuncType,
    GroupTree, Guarded, HeapType, RefType, StorageType, StructType, SubType, ValType,
};
