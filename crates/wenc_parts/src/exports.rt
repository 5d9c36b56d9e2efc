//! Kinds of the exports of components.
ghost use Rattle.wenc_base.specs.Prelude.{itself, as_itself, serves_itself};
ghost use Rattle.wenc_parts.specs.Prelude.{component_export_kind, component_export_kind_lawful};

use crate::component::{
    COMPONENT_SORT, CORE_MODULE_SORT, CORE_SORT, FUNCTION_SORT, INSTANCE_SORT, TYPE_SORT,
    VALUE_SORT,
};
use std::alloc::Allocator;
use wenc_base::{Delimited, DelimitedEq, Encode, Fault, encode_byte};

/// The kind of an export of a component (component model, binary format, `sort`).
#[derive(Clone, Copy, Debug, PartialEq, Eq)]
pub enum ComponentExportKind {
    /// A core module.
    Module,
    /// A function.
    Func,
    /// A value.
    Value,
    /// A type.
    Type,
    /// An instance.
    Instance,
    /// A component.
    Component,
}

impl Encode for ComponentExportKind {
    ghost piece = { λ k. component_export_kind k };

    fn encode<A: Allocator>(&self, sink: &mut Vec<u8, A>) -> Result<(), Fault> {
        let kind = match self {
            ComponentExportKind::Module => {
                sink.extend_from_slice(&[CORE_SORT, CORE_MODULE_SORT])?;
                return Ok(());
            }
            ComponentExportKind::Func => FUNCTION_SORT,
            ComponentExportKind::Value => VALUE_SORT,
            ComponentExportKind::Type => TYPE_SORT,
            ComponentExportKind::Instance => INSTANCE_SORT,
            ComponentExportKind::Component => COMPONENT_SORT,
        };
        encode_byte(kind, sink)
    }
}

impl Delimited for ComponentExportKind {
    ghost reads_back = { as_itself component_export_kind_lawful };

    ghost written = { λ _. serves_itself };
}

impl DelimitedEq for ComponentExportKind {
    ghost alike = { itself _ };
}
