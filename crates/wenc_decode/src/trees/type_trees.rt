//! Owned copies of the types that components define.
ghost use Rattle.std.specs.Prelude.{◌≡◌, map, IfOk};
ghost use Rattle.wenc_types.specs.Prelude.{type_view, instance_declaration_view};
ghost use Rattle.wenc_types.specs.Prelude.{component_declaration_view};
ghost use Rattle.wenc_view.specs.Prelude.{type_seen, instance_declaration_seen};
ghost use Rattle.wenc_view.specs.Prelude.{component_declaration_seen};
ghost use Rattle.wenc_view.specs.Prelude.{component_members, instance_members};

use super::{TreeOf, room_for};
use std::alloc::{AllocError, Allocator};
use wenc_parts::{AliasTree, NameTree};
use wenc_types::{ComponentDecl, CoreTypeTree, DefinedTree, InstanceDecl, TypeTree};
use wenc_view::{ComponentDeclView, ComponentDecls, InstanceDeclView, InstanceDecls, TypeView};

impl<'a, A: Allocator + Copy> TreeOf<TypeView<'a>, A> for TypeTree<A> {
    ghost is_copy = { λ t v. type_view t ≡ type_seen v };

    fn tree_of(alloc: A, view: TypeView<'a>) -> Result<TypeTree<A>, AllocError> {
        type_tree(alloc, view)
    }
}

/// Returns an owned type that equals the view.
#[cycle(type_trees)]
fn type_tree<A: Allocator + Copy>(alloc: A, view: TypeView<'_>) -> Result<TypeTree<A>, AllocError>
    ensures { IfOk result (λ t. type_view t ≡ type_seen view.entry) }
{
    match view {
        TypeView::Defined(ty) => {
            let ty = DefinedTree::tree_of(alloc, ty)?;
            Ok(TypeTree::Defined(ty))
        }
        TypeView::Func {
            is_async,
            params,
            result: answer,
        } => {
            let params = Vec::tree_of(alloc, params)?;
            Ok(TypeTree::Func {
                is_async,
                params,
                result: answer,
            })
        }
        TypeView::Component(decls) => {
            let decls = component_decls(alloc, decls)?;
            Ok(TypeTree::Component(decls))
        }
        TypeView::Instance(decls) => {
            let decls = instance_decls(alloc, decls)?;
            Ok(TypeTree::Instance(decls))
        }
        TypeView::Resource { rep, dtor } => Ok(TypeTree::Resource { rep, dtor }),
    }
}

/// Returns the declarations that are left of a component type, as owned ones.
#[cycle(type_trees)]
fn component_decls<A: Allocator + Copy>(
    alloc: A,
    view: ComponentDecls<'_>,
) -> Result<Vec<ComponentDecl<A>, A>, AllocError>
    ensures { IfOk result
        (λ ds. map component_declaration_view ds.items ≡ component_members view.entry) }
{
    let mut decls = Vec::with_capacity(alloc, room_for(view.left, view.bytes))?;
    for decl in view {
        let tree = component_decl(alloc, decl)?;
        decls.push(tree)?;
    }
    Ok(decls)
}

/// Returns the declarations that are left of an instance type, as owned ones.
#[cycle(type_trees)]
fn instance_decls<A: Allocator + Copy>(
    alloc: A,
    view: InstanceDecls<'_>,
) -> Result<Vec<InstanceDecl<A>, A>, AllocError>
    ensures { IfOk result
        (λ ds. map instance_declaration_view ds.items ≡ instance_members view.entry) }
{
    let mut decls = Vec::with_capacity(alloc, room_for(view.left, view.bytes))?;
    for decl in view {
        let tree = instance_decl(alloc, decl)?;
        decls.push(tree)?;
    }
    Ok(decls)
}

/// Returns an owned declaration of a component type that equals the view.
#[cycle(type_trees)]
fn component_decl<A: Allocator + Copy>(
    alloc: A,
    view: ComponentDeclView<'_>,
) -> Result<ComponentDecl<A>, AllocError>
    ensures { IfOk result
        (λ d. component_declaration_view d ≡ component_declaration_seen view.entry) }
{
    match view {
        ComponentDeclView::Import { name, ty } => {
            let name = NameTree::tree_of(alloc, name)?;
            Ok(ComponentDecl::Import { name, ty })
        }
        ComponentDeclView::Decl(decl) => {
            let decl = instance_decl(alloc, decl)?;
            Ok(ComponentDecl::Decl(decl))
        }
    }
}

/// Returns an owned declaration of an instance type that equals the view.
#[cycle(type_trees)]
fn instance_decl<A: Allocator + Copy>(
    alloc: A,
    view: InstanceDeclView<'_>,
) -> Result<InstanceDecl<A>, AllocError>
    ensures { IfOk result
        (λ d. instance_declaration_view d ≡ instance_declaration_seen view.entry) }
{
    match view {
        InstanceDeclView::CoreType(ty) => {
            let ty = CoreTypeTree::tree_of(alloc, ty)?;
            Ok(InstanceDecl::CoreType(ty))
        }
        InstanceDeclView::Type(ty) => {
            let ty = type_tree(alloc, ty)?;
            Ok(InstanceDecl::Type(ty))
        }
        InstanceDeclView::Alias(alias) => {
            let alias = AliasTree::tree_of(alloc, alias)?;
            Ok(InstanceDecl::Alias(alias))
        }
        InstanceDeclView::Export { name, ty } => {
            let name = NameTree::tree_of(alloc, name)?;
            Ok(InstanceDecl::Export { name, ty })
        }
    }
}
