//! Types written by encoders, proved from the public contracts.
ghost use Rattle.std.specs.Iterator.Runs.{WholeRun};
ghost use Rattle.std.specs.Iterator.{IsFinite};
ghost use Rattle.std.specs.Prelude.{◌≡◌, ◌++◌, ◌∷◌, [], List, map, OnOk, Ok, true, false};
ghost use Rattle.wenc_base.specs.Prelude.{Single, sub_view, Contains};
ghost use Rattle.wenc_types.specs.Prelude.{DefType, DefinedType, FunctionType};
ghost use Rattle.wenc_types.specs.Prelude.{ComponentDeclaration, Declared, Typed, def_type};
ghost use Rattle.wenc_types.specs.Prelude.{ModuleDeclares, ComponentDeclares, CoreType, Grouped};
ghost use Rattle.wenc_types.specs.Prelude.{ModuleDeclaration, ModuleRecType, core_type, OptionOf};
ghost use Rattle.wenc_types.specs.Prelude.{borrowed_labelled_type};

use std::alloc::Allocator;
use wasm_encoder::laws::openings_are_members;
use wenc_base::{Fault, SubType};
use wenc_parts::ComponentValType;
use wenc_sections::{ComponentTypeSection, CoreTypeSection};
use wenc_types::{ComponentType, ModuleType};

/// Begins a type, drops its encoder, discards the type and begins it again: the section has one
/// more type, and no trace of the first.
pub fn begun_again<A: Allocator, B: Allocator>(
    section: &mut CoreTypeSection<A>,
    ty: &SubType<B>,
) -> Result<bool, Fault>
    ensures had_begun { OnOk result (result ≡ Ok true) }
    ensures one_more { OnOk result ((types : List CoreType)
        → Contains core_type section.old types → Contains core_type section.new
        (types ++ Grouped (Single (sub_view ty.now)) ∷ [])) }
{
    openings_are_members();
    section.ty()?;
    let had_begun = section.discard_unfinished();
    section.ty()?.core().subtype(ty)?;
    Ok(had_begun)
}

/// Shows that another type is rejected while a type is being written, and that discarding it leaves
/// the section as it was.
pub fn refused_meanwhile<A: Allocator>(section: &mut CoreTypeSection<A>) -> Result<bool, Fault>
    ensures unfinished { OnOk result (result ≡ Ok true) }
    ensures same { OnOk result (section.new ≡ section.old) }
{
    openings_are_members();
    section.ty()?;
    if let Ok(_) = section.ty() {
        return Ok(false);
    }
    Ok(section.discard_unfinished())
}

/// Declares a type in a module type.
pub fn declared<A: Allocator, B: Allocator>(
    types: &mut ModuleType<A>,
    ty: &SubType<B>,
) -> Result<(), Fault>
    ensures { OnOk result ((ds : List ModuleDeclaration) → ModuleDeclares types.old ds
        → ModuleDeclares types.new (ds ++ ModuleRecType (Single (sub_view ty.now)) ∷ [])) }
{
    openings_are_members();
    types.ty()?.subtype(ty)
}

/// Writes a function type, from its opening to its end.
pub fn function_written<'b, A: Allocator, P>(
    section: &mut ComponentTypeSection<A>,
    params: P,
    answer: Option<ComponentValType>,
) -> Result<(), Fault>
where
    P: Iterator<Item = (&'b str, ComponentValType)> + Drop,
    requires can { P.can_next params }
    requires ends { IsFinite (P.remaining params) }
    ensures { OnOk result (WholeRun P.next_gives params (λ run. (types : List DefType)
        → Contains def_type section.old types → Contains def_type section.new
        (types ++ FunctionType (record {
          is_async = false;
          params = map borrowed_labelled_type run.items;
          answer = answer;
        }) ∷ []))) }
{
    openings_are_members();
    let mut function = section.function()?;
    function.params(params)?;
    function.result(answer)
}

/// Declares an option type in a component type, which then has one more declarator.
pub fn option_declared<A: Allocator>(
    types: &mut ComponentType<A>,
    ty: ComponentValType,
) -> Result<(), Fault>
    ensures { OnOk result ((ds : List ComponentDeclaration) → ComponentDeclares types.old ds
        → ComponentDeclares types.new (ds ++ Declared (Typed (DefinedType (OptionOf ty))) ∷ [])) }
{
    openings_are_members();
    types.ty()?.defined_type().option(ty)
}
