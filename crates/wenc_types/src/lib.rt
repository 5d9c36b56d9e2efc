//! Types that components define: as trees, and by encoders that write them into a parent.
//!
//! Numbers, indices, counts and sizes are from 0 to 4294967295.
//!
//! # Errors
//!
//! A call fails with `TooMany` if there would be more declarations or values than that, with
//! `TooLarge` if there would be more bytes, with `Memory` if an allocation fails, and with
//! `Unfinished` if a type was begun and not ended.
#![tactic(auto)]

pub mod component_type;
pub mod core_type_tree;
pub mod counts;
pub mod declarations;
pub mod defined_tree;
pub mod encoders;
pub mod instance_type;
pub mod module_type;
pub mod type_tree;

pub use component_type::ComponentType;
pub use core_type_tree::{CoreTypeTree, ModuleDecl};
pub use declarations::{Declarations, DeclaredKind, DeclaringKind};
pub use defined_tree::{CaseTree, DefinedTree};
pub use encoders::core_type::ComponentCoreTypeEncoder;
pub use encoders::defined_type::ComponentDefinedTypeEncoder;
pub use encoders::func_type::{ComponentFuncTypeEncoder, FuncStage};
pub use encoders::ty::ComponentTypeEncoder;
pub use instance_type::InstanceType;
pub use module_type::ModuleType;
pub use type_tree::{ComponentDecl, InstanceDecl, TypeTree};
