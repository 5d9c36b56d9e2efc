//! Owned copies of core types.
ghost use Rattle.std.specs.Prelude.{◌≡◌};
ghost use Rattle.wenc_base.specs.Prelude.{composite_view, sub_view, rec_type_view};
ghost use Rattle.wenc_types.specs.Prelude.{module_declaration_view, core_type_view};
ghost use Rattle.wenc_view.specs.Prelude.{composite_seen, sub_seen, rec_type_seen};
ghost use Rattle.wenc_view.specs.Prelude.{module_declaration_seen, core_type_seen};

use super::TreeOf;
use std::alloc::{AllocError, Allocator};
use wenc_base::{
    ArrayType, CompositeType, FieldType, FuncType, GroupTree, StructType, SubType, ValType,
};
use wenc_types::{CoreTypeTree, ModuleDecl};
use wenc_view::CoreTypeView;
use wenc_view::composites::{CompositeView, GroupView, SubView};
use wenc_view::core_type_views::ModuleDeclView;

impl<A: Allocator + Copy> TreeOf<ValType, A> for ValType {
    ghost is_copy = { λ t v. t ≡ v };

    fn tree_of(_alloc: A, view: ValType) -> Result<ValType, AllocError> {
        Ok(view)
    }
}

impl<A: Allocator + Copy> TreeOf<FieldType, A> for FieldType {
    ghost is_copy = { λ t v. t ≡ v };

    fn tree_of(_alloc: A, view: FieldType) -> Result<FieldType, AllocError> {
        Ok(view)
    }
}

impl<'a, A: Allocator + Copy> TreeOf<CompositeView<'a>, A> for CompositeType<A> {
    ghost is_copy = { λ t v. composite_view t ≡ composite_seen v };

    fn tree_of(alloc: A, view: CompositeView<'a>) -> Result<CompositeType<A>, AllocError> {
        match view {
            CompositeView::Func { params, results } => {
                let params = Vec::tree_of(alloc, params)?;
                let results = Vec::tree_of(alloc, results)?;
                let ty = FuncType::from_lists(params, results);
                Ok(CompositeType::Func(ty))
            }
            CompositeView::Array(element) => Ok(CompositeType::Array(ArrayType(element))),
            CompositeView::Struct(fields) => {
                let fields = Vec::tree_of(alloc, fields)?;
                Ok(CompositeType::Struct(StructType { fields }))
            }
        }
    }
}

impl<'a, A: Allocator + Copy> TreeOf<SubView<'a>, A> for SubType<A> {
    ghost is_copy = { λ t v. sub_view t ≡ sub_seen v };

    fn tree_of(alloc: A, view: SubView<'a>) -> Result<SubType<A>, AllocError> {
        let composite_type = CompositeType::tree_of(alloc, view.composite_type)?;
        Ok(SubType {
            is_final: view.is_final,
            supertype_idx: view.supertype_idx,
            composite_type,
        })
    }
}

impl<'a, A: Allocator + Copy> TreeOf<GroupView<'a>, A> for GroupTree<A> {
    ghost is_copy = { λ t v. rec_type_view t ≡ rec_type_seen v };

    fn tree_of(alloc: A, view: GroupView<'a>) -> Result<GroupTree<A>, AllocError> {
        match view {
            GroupView::Sub(ty) => {
                let ty = SubType::tree_of(alloc, ty)?;
                Ok(GroupTree::Sub(ty))
            }
            GroupView::Rec(types) => {
                let types = Vec::tree_of(alloc, types)?;
                Ok(GroupTree::Rec(types))
            }
        }
    }
}

impl<'a, A: Allocator + Copy> TreeOf<ModuleDeclView<'a>, A> for ModuleDecl<A> {
    ghost is_copy = { λ t v. module_declaration_view t ≡ module_declaration_seen v };

    fn tree_of(alloc: A, view: ModuleDeclView<'a>) -> Result<ModuleDecl<A>, AllocError> {
        match view {
            ModuleDeclView::Import { module, name, ty } => {
                let module = String::from_str(alloc, module)?;
                let name = String::from_str(alloc, name)?;
                Ok(ModuleDecl::Import { module, name, ty })
            }
            ModuleDeclView::Type(ty) => {
                let ty = GroupTree::tree_of(alloc, ty)?;
                Ok(ModuleDecl::Type(ty))
            }
            ModuleDeclView::Alias { count, index } => Ok(ModuleDecl::Alias { count, index }),
            ModuleDeclView::Export { name, ty } => {
                let name = String::from_str(alloc, name)?;
                Ok(ModuleDecl::Export { name, ty })
            }
        }
    }
}

impl<'a, A: Allocator + Copy> TreeOf<CoreTypeView<'a>, A> for CoreTypeTree<A> {
    ghost is_copy = { λ t v. core_type_view t ≡ core_type_seen v };

    fn tree_of(alloc: A, view: CoreTypeView<'a>) -> Result<CoreTypeTree<A>, AllocError> {
        match view {
            CoreTypeView::Group(group) => {
                let group = GroupTree::tree_of(alloc, group)?;
                Ok(CoreTypeTree::Group(group))
            }
            CoreTypeView::Module(decls) => {
                let decls = Vec::tree_of(alloc, decls)?;
                Ok(CoreTypeTree::Module(decls))
            }
        }
    }
}
