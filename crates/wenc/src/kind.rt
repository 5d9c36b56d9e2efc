//! Parses kinds of items.
ghost use Rattle.std.specs.Prelude.{◌≡◌};
ghost use Rattle.wenc.specs.Prelude.{kind, reference_word};

use wasm_encoder::{ComponentExportKind, ComponentTypeRef, ComponentValType, TypeBounds};

/// Returns the kind that a word names.
pub fn kind(word: &str) -> Option<ComponentExportKind>
    ensures { result ≡ kind word.now }
{
    match word {
        "module" => Some(ComponentExportKind::Module),
        "func" => Some(ComponentExportKind::Func),
        "value" => Some(ComponentExportKind::Value),
        "type" => Some(ComponentExportKind::Type),
        "instance" => Some(ComponentExportKind::Instance),
        "component" => Some(ComponentExportKind::Component),
        _ => None,
    }
}

/// Returns the `externdesc` of an import of this kind with this index.
pub fn reference(kind: ComponentExportKind, index: u32) -> ComponentTypeRef
    ensures { result ≡ reference_word kind index }
{
    match kind {
        ComponentExportKind::Module => ComponentTypeRef::Module(index),
        ComponentExportKind::Func => ComponentTypeRef::Func(index),
        ComponentExportKind::Value => ComponentTypeRef::Value(ComponentValType::Type(index)),
        ComponentExportKind::Type => ComponentTypeRef::Type(TypeBounds::Eq(index)),
        ComponentExportKind::Instance => ComponentTypeRef::Instance(index),
        ComponentExportKind::Component => ComponentTypeRef::Component(index),
    }
}
