//! Examples of trees, which own all of their parts.

use std::alloc::{Allocator, Global};
use wenc_base::{CompositeType, Encode, EntityType, Fault, FuncType, GroupTree, SubType, ValType};
use wenc_parts::{ComponentExportKind, ComponentTypeRef, ModuleArg, NameTree};
use wenc_sections::{CanonTree, CoreInstanceTree, InstanceTree};
use wenc_types::{CoreTypeTree, DefinedTree, InstanceDecl, ModuleDecl, TypeTree};

/// `CanonTree`.
pub fn canon<A: Allocator>(alloc: A) -> Result<Vec<u8, A>, Fault> {
    let mut sink = Vec::new(alloc);
    let drop: CanonTree = CanonTree::ResourceDrop(3);
    drop.encode(&mut sink)?;
    Ok(sink)
}

/// `CoreTypeTree`: the type of a module that exports a function.
pub fn core_type(alloc: Global) -> Result<CoreTypeTree, Fault> {
    let answer = ModuleDecl::Export {
        name: String::from_str(alloc, "answer")?,
        ty: EntityType::Function(0),
    };
    let function = FuncType::new(alloc, [].into_iter(), [ValType::I32].into_iter())?;
    let ty = SubType {
        is_final: true,
        supertype_idx: None,
        composite_type: CompositeType::Func(function),
    };
    let tree = CoreTypeTree::Module(vec![in alloc; ModuleDecl::Type(GroupTree::Sub(ty)), answer]?);
    Ok(tree)
}

/// `DefinedTree`.
pub fn defined(alloc: Global) -> Result<DefinedTree, Fault> {
    let read = String::from_str(alloc, "read")?;
    let write = String::from_str(alloc, "write")?;
    let tree = DefinedTree::Flags(vec![in alloc; read, write]?);
    Ok(tree)
}

/// `TypeTree`: the type of an instance that exports a function.
pub fn ty(alloc: Global) -> Result<TypeTree, Fault> {
    let function = TypeTree::Func {
        is_async: false,
        params: Vec::new(alloc),
        result: None,
    };
    let name = NameTree::from(String::from_str(alloc, "stop")?);
    let ty = ComponentTypeRef::Func(0);
    let decls = vec![in alloc;
        InstanceDecl::Type(function),
        InstanceDecl::Export { name, ty },
    ]?;
    let tree = TypeTree::Instance(decls);
    Ok(tree)
}

/// `CoreInstanceTree`.
pub fn core_instance(alloc: Global) -> Result<CoreInstanceTree, Fault> {
    let name = String::from_str(alloc, "env")?;
    let args = vec![in alloc; (name, ModuleArg::Instance(0))]?;
    let tree = CoreInstanceTree::Instantiate { module: 1, args };
    Ok(tree)
}

/// `InstanceTree`.
pub fn instance(alloc: Global) -> Result<InstanceTree, Fault> {
    let name = NameTree::from(String::from_str(alloc, "now")?);
    let exports = vec![in alloc; (name, ComponentExportKind::Func, 0)]?;
    let tree = InstanceTree::Exports(exports);
    Ok(tree)
}
