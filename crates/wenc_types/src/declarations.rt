//! Declarations, of which the types of modules, components and instances consist.
ghost use Rattle.std.specs.Borrow.{sem};
ghost use Rattle.std.specs.Prelude.{◌≡◌, ◌==◌, ◌∷◌, ℕ, [], Option as Optional, Some, OnOk, OnErr};
ghost use Rattle.std.specs.Prelude.{IfOk, IfErr, true, false};
ghost use Rattle.wenc_base.specs.Prelude.{Appends, Serves, IsMemory, IsWarranted, NoCause};
ghost use Rattle.wenc_base.specs.Prelude.{is_finished, held_members, held_text, EncodeCause};
ghost use Rattle.wenc_base.specs.Prelude.{AddCause, Borrows, GivesUp, ◌▸◌, Form, no_room_in_holder};
ghost use Rattle.wenc_base.specs.Prelude.{is_opened, member_text, opened_is_unfinished};
ghost use Rattle.wenc_base.specs.declared.fault.Fault.TheVariants.{Unfinished};
ghost use Rattle.wenc_parts.specs.Prelude.{alias_view, InstanceExport, Outer, extern_name_view};
ghost use Rattle.wenc_parts.specs.declared.aliases.ComponentOuterAliasKind.TheVariants as outers;
ghost use Rattle.wenc_parts.specs.declared.exports.ComponentExportKind.TheVariants as kinds;
ghost use Rattle.wenc_parts.specs.declared.imports.ComponentTypeRef.TheVariants as references;
ghost use Rattle.wenc_types.specs.Prelude.{InstanceDeclaration, DeclaredAs, AddsDeclared};
ghost use Rattle.wenc_types.specs.Prelude.{Aliased, Exported, indexed_outcome};
ghost use Rattle.wenc_types.specs.Prelude.{no_declarations, lead_of, type_begun};
ghost use Rattle.wenc_types.specs.Prelude.{type_given_up, NoneBegun, DeclaresSome, IsDeclaration};
ghost use Rattle.wenc_types.specs.Prelude.{AddsDeclaration, unchanged_on_err};
ghost use Rattle.wenc_types.specs.Prelude.{IndexSpace as SpaceSpec, type_appended, type_ended};
ghost use Rattle.wenc_types.specs.Prelude.{type_appended_twice};
ghost use Rattle.wenc_types.specs.declared.counts.IndexSpace.TheVariants as spaces;
ghost use Rattle.wenc_types.specs.declared.encoders.func_type.FuncStage.TheVariants as stages;

use crate::counts::{Counts, IndexSpace, space_of_alias, space_of_kind};
use crate::encoders::core_type::ComponentCoreTypeEncoder;
use crate::encoders::defined_type::ComponentDefinedTypeEncoder;
use crate::encoders::func_type::ComponentFuncTypeEncoder;
use crate::encoders::ty::ComponentTypeEncoder;
use std::alloc::{Allocator, Global};
use std::marker::{Model, PhantomData};
use wenc_base::{Encode, Fault, Holder, Parent, Prefix, Tagged};
use wenc_parts::{
    Alias, ComponentExportKind, ComponentExternName, ComponentOuterAliasKind, ComponentTypeRef,
    TypeBounds,
};

/// The kinds of types that consist of declarations: those of modules, components and instances
/// (component model, binary format, "Core Definitions" and "Type Definitions").
///
/// Declarations that only some kinds allow are methods in the module of that kind.
pub trait DeclaredKind {
    /// The first byte of the encoding of such a type, for contracts.
    ghost LEAD: { ℕ };

    /// The first byte of the encoding of such a type.
    const LEAD: u8;

    /// A declaration of such a type.
    ghost Declaration: { Type 0 };

    /// How a declaration is written.
    ghost form: { Form Declaration };

    /// The space of a declaration, if it takes an index.
    ghost space: { Declaration → Optional SpaceSpec };

    /// A declaration of an instance type as one of such a type, if it can be.
    ghost declared: { InstanceDeclaration → Optional Declaration };
}

/// The kinds of types that allow all declarations of instance types: those of components and
/// instances (component model, binary format, "Type Definitions").
pub trait DeclaringKind: DeclaredKind {
    /// Each declaration of an instance type is one of such a type, with the same encoding and
    /// space.
    ghost declares: { (d : InstanceDeclaration) → DeclaredAs Self.form Self.space
        (Self.declared d) d };
}

/// The type of a module, a component or an instance, as its declarations (component model, binary
/// format, "Core Definitions" and "Type Definitions"). Each kind has an alias: `ModuleType`,
/// `ComponentType` and `InstanceType`.
///
/// A call that fails leaves the type unchanged.
///
/// The encoders that `ty`, `core_type`, `type_defined` and `type_function` return write nested
/// types. Until such an encoder has ended its type, this type, its parent, is unfinished: adding to
/// it or encoding it fails with `Unfinished`, and `discard_unfinished` discards the nested type.
///
/// ```
/// let mut ty = InstanceType::new(alloc);
/// ty.core_type()?
///     .core()
///     .function([].into_iter(), [].into_iter())?;
/// let copy = ty.clone()?;
/// ```
#[derive(Drop)]
pub struct Declarations<K: DeclaredKind, A: Allocator = Global> {
    held: Holder<A>,
    counts: Counts,
    /// The space of the type that is being written.
    begun: Option<IndexSpace>,
    kind: PhantomData<K>,
}

impl<K: DeclaredKind, A: Allocator> Model for Declarations<K, A> {
    ghost use Rattle.wenc_types.specs.Prelude.{TypeState, IsTypeState};

    ghost Value = { TypeState };

    ghost view = { λ t. record { held = t.held; counts = t.counts; begun = t.begun } };

    ghost invariant = { λ t. IsTypeState K.form K.space
        (record { held = t.held; counts = t.counts; begun = t.begun }) };
}

impl<K: DeclaredKind, A: Allocator> Declarations<K, A> {
    /// Creates a type without declarations. Does not allocate.
    pub fn new(alloc: A) -> Self
        ensures { result ≡ no_declarations }
    {
        Declarations {
            held: Holder::new(alloc),
            counts: Counts::none(),
            begun: None,
            kind: PhantomData,
        }
    }

    /// Adds a declaration with the encoding of this value, in this space.
    pub(crate) fn add<E: Encode>(
        &mut self,
        declaration: &E,
        space: Option<IndexSpace>,
    ) -> Result<(), Fault>
        requires { (E.piece declaration.now).Fits
            → IsDeclaration K.form K.space (E.piece declaration.now).text space }
        ensures { (d : K.Declaration) → Serves (E.piece declaration.now) (K.form d)
            → space ≡ K.space d → AddsDeclaration K.form K.space self.old self.new result d }
    {
        self.held.add_encoded(declaration)?;
        let count = self.held.len();
        self.counts = self.counts.counted(space, count);
        Ok(())
    }

    /// Begins a nested type: opens a member with its first byte.
    pub(crate) fn begin(&mut self, lead: u8, space: IndexSpace) -> Result<(), Fault>
        requires { lead_of space ≡ lead ∷ [] }
        ensures ok { OnOk result (self.new ≡ type_begun space self.old) }
        ensures settled { OnOk result (NoneBegun self.old) }
        ensures free { OnOk result (NoCause (AddCause self.old.held (lead_of space) (λ _. ⊥))) }
        ensures err { OnErr result (self.new ≡ self.old) }
        ensures warranted { IfErr result (IsWarranted
            (AddCause self.old.held (lead_of space) (λ _. ⊥))) }
        ensures unfinished_first { is_finished self.old.held ≡ false → result ≡ Err Unfinished }
    {
        self.held.open(&[lead])?;
        let count = self.held.len();
        self.counts = self.counts.counted(Some(space), count);
        self.begun = Some(space);
        Ok(())
    }

    /// Returns the number of types: those of `ty`, one that is being written included, and those of
    /// aliases, imports and exports. For a module type, these are core types.
    pub fn type_count(&self) -> u32
        ensures { result ≡ self.now.counts.types }
    {
        self.counts.types
    }

    /// Returns whether no nested type is being written. The type then consists of complete
    /// declarations, whatever calls were made.
    pub fn is_finished(&self) -> bool
        ensures finished { result ≡ is_finished self.now.held }
        ensures settled { is_finished self.now.held ≡ true → NoneBegun self.now }
        ensures declares { is_finished self.now.held ≡ true
            → ∥ DeclaresSome K.form K.space self.now ∥₁ }
    {
        self.held.is_finished()
    }

    /// Discards the nested type that is being written, and returns whether there was one. The
    /// receiver is then as it was before that type. Does not allocate.
    pub fn discard_unfinished(&mut self) -> bool
        ensures given_up { GivesUp self.new (type_given_up self.old)
            (is_finished self.old.held) result }
        ensures same { is_finished self.old.held ≡ true → self.new ≡ self.old }
    {
        let was = self.held.discard_unfinished();
        self.counts = self.counts.uncounted(self.begun);
        self.begun = None;
        was
    }

    /// Returns a copy of the type. A copy of an unfinished type is unfinished.
    ///
    /// # Errors
    ///
    /// Fails only if an allocation fails.
    pub fn clone(&self) -> Result<Self, Fault>
    where
        A: Clone,
        ensures same { IfOk result (λ t. t ≡ self.now) }
        ensures refused { IfErr result IsMemory }
    {
        let held = self.held.clone()?;
        Ok(Declarations {
            held,
            counts: self.counts,
            begun: self.begun,
            kind: PhantomData,
        })
    }
}

impl<K: DeclaringKind, A: Allocator> Declarations<K, A> {
    ghost use Rattle.wenc_types.specs.contracts.declarations.Declarations.{the_row};

    /// Begins a core type, and returns its encoder.
    ///
    /// # Errors
    ///
    /// Fails with `Unfinished` while a type is being written, with `TooMany` if the number of
    /// declarations would exceed 4294967295, and with `TooLarge` if their bytes would.
    pub fn core_type(&mut self) -> Result<ComponentCoreTypeEncoder<'_, Declarations<K, A>>, Fault>
        ensures* refused { sem 𝓛 (unchanged_on_err (the_row K.row A.row K.DeclaredKind A.Allocator)
            self.entry (λ e. e.parent) result) }
        ensures same_reference { IfOk result (λ e. e.parent.ghost_name ≡ self.entry.ghost_name) }
        ensures borrowed { Borrows (λ e. e.parent.now) (type_begun spaces.CoreType self.old)
            (is_finished self.old.held) result
            (AddCause self.old.held (lead_of spaces.CoreType) (λ _. ⊥)) }
        ensures settled { OnOk result (NoneBegun self.old) }
    {
        self.begin(0x00, IndexSpace::CoreType)?;
        Ok(ComponentCoreTypeEncoder::new(self))
    }

    /// Begins a type, and returns its encoder.
    ///
    /// # Errors
    ///
    /// Fails as `core_type` does.
    pub fn ty(&mut self) -> Result<ComponentTypeEncoder<'_, Declarations<K, A>>, Fault>
        ensures* refused { sem 𝓛 (unchanged_on_err (the_row K.row A.row K.DeclaredKind A.Allocator)
            self.entry (λ e. e.parent) result) }
        ensures same_reference { IfOk result (λ e. e.parent.ghost_name ≡ self.entry.ghost_name) }
        ensures borrowed { Borrows (λ e. e.parent.now) (type_begun spaces.«Type» self.old)
            (is_finished self.old.held) result
            (AddCause self.old.held (lead_of spaces.«Type») (λ _. ⊥)) }
        ensures settled { OnOk result (NoneBegun self.old) }
    {
        self.begin(0x01, IndexSpace::Type)?;
        Ok(ComponentTypeEncoder::new(self))
    }

    /// Begins a defined type, and returns its index in the index space of types and its encoder.
    ///
    /// # Errors
    ///
    /// Fails as `core_type` does.
    pub fn type_defined(
        &mut self,
    ) -> Result<(u32, ComponentDefinedTypeEncoder<'_, Declarations<K, A>>), Fault>
        ensures* refused { sem 𝓛 (unchanged_on_err (the_row K.row A.row K.DeclaredKind A.Allocator)
            self.entry (λ e. e.1.parent) result) }
        ensures same_reference { IfOk result (λ e. e.1.parent.ghost_name ≡ self.entry.ghost_name) }
        ensures borrowed { Borrows (λ e. e.1.parent.now) (type_begun spaces.«Type» self.old)
            (is_finished self.old.held) result
            (AddCause self.old.held (lead_of spaces.«Type») (λ _. ⊥)) }
        ensures index { IfOk result (λ e. e.0 ≡ self.old.counts.types) }
        ensures settled { OnOk result (NoneBegun self.old) }
    {
        let index = self.type_count();
        self.begin(0x01, IndexSpace::Type)?;
        Ok((index, ComponentDefinedTypeEncoder::new(self)))
    }

    /// Begins a function type, and returns its index in the index space of types and its encoder.
    ///
    /// # Errors
    ///
    /// Fails as `core_type` does.
    pub fn type_function(
        &mut self,
    ) -> Result<(u32, ComponentFuncTypeEncoder<'_, Declarations<K, A>>), Fault>
        ensures* refused { sem 𝓛 (unchanged_on_err (the_row K.row A.row K.DeclaredKind A.Allocator)
            self.entry (λ e. e.1.parent) result) }
        ensures same_reference { IfOk result (λ e. e.1.parent.ghost_name ≡ self.entry.ghost_name) }
        ensures borrowed { Borrows (λ e. e.1.parent.now) (type_begun spaces.«Type» self.old)
            (is_finished self.old.held) result
            (AddCause self.old.held (lead_of spaces.«Type») (λ _. ⊥)) }
        ensures index { IfOk result (λ e. e.0 ≡ self.old.counts.types) }
        ensures settled { OnOk result (NoneBegun self.old) }
        ensures stage { IfOk result (λ e. e.1.stage ≡ stages.Start) }
    {
        let index = self.type_count();
        self.begin(0x01, IndexSpace::Type)?;
        Ok((index, ComponentFuncTypeEncoder::new(self)))
    }

    /// Declares an alias.
    ///
    /// # Errors
    ///
    /// Fails as `core_type` does, and with `TooLarge` if the bytes of the alias's name would exceed
    /// 4294967295.
    pub fn alias(&mut self, alias: Alias<'_>) -> Result<(), Fault>
        ensures { AddsDeclared K.form K.space self.old self.new result
            (K.declared (Aliased (alias_view alias.entry))) }
    {
        let space = space_of_alias(&alias);
        self.add(&Prefix(0x02, &alias), space)
    }

    /// Declares an export with this name.
    ///
    /// # Errors
    ///
    /// Fails as `alias` does.
    pub fn export<B: Allocator>(
        &mut self,
        name: ComponentExternName<'_, B>,
        ty: ComponentTypeRef,
    ) -> Result<(), Fault>
        ensures { AddsDeclared K.form K.space self.old self.new result
            (K.declared (Exported (extern_name_view name.entry) ty)) }
    {
        self.add(&Prefix(0x04, &(name, ty)), space_of_kind(ty.kind()))
    }

    /// Declares an alias of a type, which the instance with the index `instance` exports under this
    /// name. Returns the alias's index in the index space of types.
    ///
    /// # Errors
    ///
    /// Fails as `alias` does.
    pub fn alias_export_type(&mut self, instance: u32, name: &str) -> Result<u32, Fault>
        ensures added { AddsDeclared K.form K.space self.old self.new (indexed_outcome result)
            (K.declared (Aliased (InstanceExport instance kinds.«Type» name.now))) }
        ensures index { IfOk result (λ index. index ≡ self.old.counts.types) }
    {
        let index = self.type_count();
        self.alias(Alias::InstanceExport {
            instance,
            kind: ComponentExportKind::Type,
            name,
        })?;
        Ok(index)
    }

    /// Declares an alias of an instance, which the instance with the index `instance` exports under
    /// this name. Returns the alias's index in the index space of instances.
    ///
    /// # Errors
    ///
    /// Fails as `alias` does.
    pub fn alias_export_instance(&mut self, instance: u32, name: &str) -> Result<u32, Fault>
        ensures added { AddsDeclared K.form K.space self.old self.new (indexed_outcome result)
            (K.declared (Aliased (InstanceExport instance kinds.Instance name.now))) }
        ensures index { IfOk result (λ index. index ≡ self.old.counts.instances) }
    {
        let index = self.instance_count();
        self.alias(Alias::InstanceExport {
            instance,
            kind: ComponentExportKind::Instance,
            name,
        })?;
        Ok(index)
    }

    /// Declares an alias of the type with the index `outer` in the scope that is `count` scopes
    /// outwards, where 0 is this type. Returns the alias's index in the index space of types.
    ///
    /// # Errors
    ///
    /// Fails as `alias` does.
    pub fn alias_outer_type(&mut self, count: u32, outer: u32) -> Result<u32, Fault>
        ensures added { AddsDeclared K.form K.space self.old self.new (indexed_outcome result)
            (K.declared (Aliased (Outer outers.«Type» count outer))) }
        ensures index { IfOk result (λ index. index ≡ self.old.counts.types) }
    {
        let index = self.type_count();
        self.alias(Alias::Outer {
            kind: ComponentOuterAliasKind::Type,
            count,
            index: outer,
        })?;
        Ok(index)
    }

    /// Declares an alias of the core type with the index `outer` in the scope that is `count`
    /// scopes outwards, where 0 is this type. Returns the alias's index in the index space of core
    /// types.
    ///
    /// # Errors
    ///
    /// Fails as `alias` does.
    pub fn alias_core_type(&mut self, count: u32, outer: u32) -> Result<u32, Fault>
        ensures added { AddsDeclared K.form K.space self.old self.new (indexed_outcome result)
            (K.declared (Aliased (Outer outers.CoreType count outer))) }
        ensures index { IfOk result (λ index. index ≡ self.old.counts.core_types) }
    {
        let index = self.core_type_count();
        self.alias(Alias::Outer {
            kind: ComponentOuterAliasKind::CoreType,
            count,
            index: outer,
        })?;
        Ok(index)
    }

    /// Declares an export of a type with this name. Returns its index in the index space of types.
    ///
    /// # Errors
    ///
    /// Fails as `alias` does.
    pub fn export_type<B: Allocator>(
        &mut self,
        name: ComponentExternName<'_, B>,
        bounds: TypeBounds,
    ) -> Result<u32, Fault>
        ensures added { AddsDeclared K.form K.space self.old self.new (indexed_outcome result)
            (K.declared (Exported (extern_name_view name.entry) (references.«Type» bounds))) }
        ensures index { IfOk result (λ index. index ≡ self.old.counts.types) }
    {
        let index = self.type_count();
        self.export(name, ComponentTypeRef::Type(bounds))?;
        Ok(index)
    }

    /// Declares an export, with this name, of an instance whose type has the index `ty`. Returns
    /// its index in the index space of instances.
    ///
    /// # Errors
    ///
    /// Fails as `alias` does.
    pub fn export_instance<B: Allocator>(
        &mut self,
        name: ComponentExternName<'_, B>,
        ty: u32,
    ) -> Result<u32, Fault>
        ensures added { AddsDeclared K.form K.space self.old self.new (indexed_outcome result)
            (K.declared (Exported (extern_name_view name.entry) (references.Instance ty))) }
        ensures index { IfOk result (λ index. index ≡ self.old.counts.instances) }
    {
        let index = self.instance_count();
        self.export(name, ComponentTypeRef::Instance(ty))?;
        Ok(index)
    }

    /// Returns the number of declarations, one that is being written included.
    pub fn len(&self) -> u32
        ensures { result ≡ self.now.held.count }
    {
        self.held.len()
    }

    /// Returns whether there are no declarations.
    pub fn is_empty(&self) -> bool
        ensures { result ≡ (self.now.held.count == 0) }
    {
        self.len() == 0
    }

    /// Returns the number of core types: those of `core_type`, one that is being written included,
    /// and those of outer aliases.
    pub fn core_type_count(&self) -> u32
        ensures { result ≡ self.now.counts.core_types }
    {
        self.counts.core_types
    }

    /// Returns the number of instances: those of aliases, imports and exports.
    pub fn instance_count(&self) -> u32
        ensures { result ≡ self.now.counts.instances }
    {
        self.counts.instances
    }
}

/// Encodes the type's first byte, the number of declarations, then the declarations. Fails with
/// `Unfinished` while a nested type is being written, else only if an allocation fails. What is
/// written consists of complete declarations, whatever calls were made.
impl<K: DeclaredKind, A: Allocator> Encode for Declarations<K, A> {
    ghost piece = { λ t. K.LEAD ▸ held_members t.held };

    ghost unfinished = { λ t. is_finished t.held ≡ false };

    fn encode<B: Allocator>(&self, sink: &mut Vec<u8, B>) -> Result<(), Fault>
        ensures appended { Appends (K.LEAD ∷ held_text self.now.held) (EncodeCause self.now.held)
            (is_finished self.now.held ≡ false) sink.old.items sink.new.items result }
        ensures fits { OnOk result (K.LEAD ▸ held_members self.now.held).Fits }
        ensures declares { OnOk result (∥ DeclaresSome K.form K.space self.now ∥₁) }
    {
        Tagged(K::LEAD, &self.held).encode(sink)
    }
}

impl<K: DeclaredKind, A: Allocator> Parent for Declarations<K, A> {
    ghost finished = { λ t. is_finished t.held };

    ghost opened = { λ t. is_opened t.held };

    ghost appended = { type_appended };

    ghost is_whole = { λ t. IsDeclaration K.form K.space (member_text t.held) t.begun };

    ghost ended = { type_ended };

    ghost refuses = { λ t. no_room_in_holder t.held };

    ghost begins = { λ t. opened_is_unfinished t.held };

    ghost stays = { λ _ _ unfinished. unfinished };

    ghost joins = { type_appended_twice };

    fn append_value<E: Encode>(&mut self, value: &E) -> Result<(), Fault> {
        self.held.append_encoded(value)
    }

    fn append_list<T: Encode + Drop, I: Iterator<Item = T> + Drop>(
        &mut self,
        lead: &[u8],
        values: I,
    ) -> Result<(), Fault> {
        self.held.append_listed(lead, values)
    }

    fn end_member(&mut self) {
        self.held.finish_member();
        self.begun = None;
    }
}
