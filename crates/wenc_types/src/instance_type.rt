//! Types of instances.
ghost use Rattle.std.specs.Prelude.{Some};
ghost use Rattle.wenc_types.specs.Prelude.{InstanceDeclaration, instance_declaration};
ghost use Rattle.wenc_types.specs.Prelude.{instance_space};

use crate::declarations::{Declarations, DeclaredKind, DeclaringKind};
use std::alloc::Global;

/// The kind of instance types.
pub struct InstanceTypes;

impl DeclaredKind for InstanceTypes {
    ghost LEAD = { 0x42 };

    const LEAD: u8 = 0x42;

    ghost Declaration = { InstanceDeclaration };

    ghost form = { instance_declaration };

    ghost space = { instance_space };

    ghost declared = { Some };
}

impl DeclaringKind for InstanceTypes {
    ghost use Rattle.std.proofs.Common.{refl};
    ghost use Rattle.wenc_base.specs.Prelude.{serves_itself};

    ghost declares = { λ _. (serves_itself, refl) };
}

/// The type of an instance: its exports, and the types that these refer to (component model, binary
/// format, "Type Definitions").
///
/// ```
/// let string = ComponentValType::Primitive(PrimitiveValType::String);
/// let mut ty = InstanceType::new(alloc);
/// ty.ty()?.defined_type().option(string)?;
/// ty.export("name".into(), ComponentTypeRef::Type(TypeBounds::Eq(0)))?;
///
/// let mut types = ComponentTypeSection::new(alloc);
/// types.instance(&ty)?;
/// ```
pub type InstanceType<A = Global> = Declarations<InstanceTypes, A>;
