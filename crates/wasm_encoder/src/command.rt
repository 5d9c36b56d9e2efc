//! Commands: the calls of a builder as data, and runs of them.
ghost use Rattle.std.specs.Prelude.{◌≡◌, ◌↔◌, ◌⊎◌, List, [], Ok, IfOk, IfErr, OnErr, IsOk, map};
ghost use Rattle.std.specs.List.{AllByRecursion};
ghost use Rattle.std.specs.Option.{option_copied, option_map};
ghost use Rattle.std.specs.String.{string_bytes};
ghost use Rattle.wasm_encoder.specs.Prelude.{led, first_cause, Add, command_view, commands_view};
ghost use Rattle.wasm_encoder.specs.Prelude.{Ran, IsRefusal, IsStopped, HasRun, RunsNext, StepsRun};
ghost use Rattle.wasm_encoder.specs.Prelude.{StepsBack, indexed as indexed_of};
ghost use Rattle.wasm_encoder.specs.Prelude.{without_index as without_index_of};
ghost use Rattle.wenc_base.specs.Prelude.{IsMemory, NoCause, Spelling};
ghost use Rattle.wenc_builder.specs.Prelude.{Item, HasNoRaw, Section, runs, Reading, whole};
ghost use Rattle.wenc_builder.specs.Prelude.{IsEncodable, EntersWithoutIndex, Entry, items};
ghost use Rattle.wenc_builder.specs.Prelude.{core_type_entry, type_entry, custom_entry, Holds};
ghost use Rattle.wenc_builder.specs.Prelude.{StartIsNameless};
ghost use Rattle.wenc_types.specs.Prelude.{core_type_view, type_view};

use std::alloc::{Allocator, Global};
use std::marker::Model;
use wenc_base::{CustomSection, Fault};
use wenc_builder::ComponentBuilder;
use wenc_parts::{AliasTree, ComponentExportKind, ComponentTypeRef, NameTree};
use wenc_sections::{CanonTree, CoreInstanceTree, InstanceTree};
use wenc_types::{CoreTypeTree, TypeTree};

/// A builder call as data (component model, binary format, "Component Definitions").
///
/// ```
/// let import = Command::Import {
///     name: NameTree::from(String::from_str(alloc, "file")?),
///     ty: ComponentTypeRef::Type(TypeBounds::SubResource),
/// };
/// ```
#[derive(Drop)]
pub enum Command<A: Allocator = Global> {
    /// A core module.
    CoreModule {
        /// The item's debug name, if any.
        debug_name: Option<String<A>>,
        /// The module's bytes, which aren't checked.
        bytes: Vec<u8, A>,
    },
    /// A core instance: an instance of a core module, or inline exports of core items.
    CoreInstance {
        /// The item's debug name, if any.
        debug_name: Option<String<A>>,
        /// The instance.
        instance: CoreInstanceTree<A>,
    },
    /// A core type.
    CoreType {
        /// The item's debug name, if any.
        debug_name: Option<String<A>>,
        /// The type, boxed since it is far larger than other commands.
        ty: Box<CoreTypeTree<A>, A>,
    },
    /// A nested component, built by commands. It is accepted only if all of them are; otherwise, it
    /// is refused with the first fault among them.
    Component {
        /// The item's debug name, if any.
        debug_name: Option<String<A>>,
        /// The commands that make it.
        commands: Vec<Command<A>, A>,
    },
    /// A nested component, given as its bytes.
    ComponentRaw {
        /// The item's debug name, if any.
        debug_name: Option<String<A>>,
        /// The component's bytes, which aren't checked.
        bytes: Vec<u8, A>,
    },
    /// An instance: an instance of a component, or inline exports of items.
    Instance {
        /// The item's debug name, if any.
        debug_name: Option<String<A>>,
        /// The instance.
        instance: InstanceTree<A>,
    },
    /// An alias.
    Alias {
        /// The item's debug name, if any.
        debug_name: Option<String<A>>,
        /// The aliased item.
        alias: AliasTree<A>,
    },
    /// A type.
    Type {
        /// The item's debug name, if any.
        debug_name: Option<String<A>>,
        /// The type.
        ty: TypeTree<A>,
    },
    /// A canonical function.
    Canon {
        /// The debug name of a lifted or lowered function, if any. A built-in function has its own.
        debug_name: Option<String<A>>,
        /// The function.
        canon: CanonTree<A>,
    },
    /// A start function, called at instantiation.
    Start {
        /// The index of the function.
        function: u32,
        /// The indices of the values that are its arguments.
        args: Vec<u32, A>,
        /// The number of its results.
        results: u32,
    },
    /// An import.
    Import {
        /// The name, with its options.
        name: NameTree<A>,
        /// The type of the imported item.
        ty: ComponentTypeRef,
    },
    /// An export.
    Export {
        /// The name, with its options.
        name: NameTree<A>,
        /// The kind of the item.
        kind: ComponentExportKind,
        /// The index of the item.
        index: u32,
        /// The ascribed type, if any.
        ty: Option<ComponentTypeRef>,
    },
    /// A custom section with the debug names so far, if there are any.
    AppendNames,
    /// A custom section.
    Custom {
        /// The name of the section.
        name: String<A>,
        /// The bytes after the name.
        data: Vec<u8, A>,
    },
    /// A custom section, given as the bytes after its id.
    RawCustom {
        /// The bytes, which aren't checked.
        bytes: Vec<u8, A>,
    },
}

/// Makes the call that a command describes. Returns the call's result, or `Err` if the encoder of a
/// type failed, which leaves the builder unfinished.
#[cycle(running)]
fn run<A: Allocator, B: Allocator + Copy>(
    command: &Command<A>,
    alloc: B,
    builder: &mut ComponentBuilder<B>,
) -> Result<Result<Option<u32>, Fault>, Fault>
    ensures { StepsRun builder.old builder.new result (command_view command.now) }
{
    match command {
        Command::CoreModule { debug_name, bytes } => indexed(builder.core_module_raw(
            as_deref(debug_name),
            bytes,
        )),
        Command::CoreInstance {
            debug_name,
            instance,
        } => { indexed(builder.core_instance_tree(as_deref(debug_name), instance)) }
        Command::CoreType { debug_name, ty } => core_type_of(builder, as_deref(debug_name), ty),
        Command::Component {
            debug_name,
            commands,
        } => match run_all(commands, alloc) {
            Ok(inner) => indexed(builder.component(as_deref(debug_name), inner)),
            Err(fault) => Ok(Err(fault)),
        },
        Command::ComponentRaw { debug_name, bytes } => indexed(builder.component_raw(
            as_deref(debug_name),
            bytes,
        )),
        Command::Instance {
            debug_name,
            instance,
        } => indexed(builder.instance_tree(as_deref(debug_name), instance)),
        Command::Alias { debug_name, alias } => indexed(builder.alias(
            as_deref(debug_name),
            alias.as_alias(),
        )),
        Command::Type { debug_name, ty } => type_of(builder, as_deref(debug_name), ty),
        Command::Canon { debug_name, canon } => indexed(builder.canonical_tree(
            as_deref(debug_name),
            canon,
        )),
        Command::Start {
            function,
            args,
            results,
        } => indexed(builder.start(*function, args, *results)),
        Command::Import { name, ty } => indexed(builder.import(name.as_name(), *ty)),
        Command::Export {
            name,
            kind,
            index,
            ty,
        } => indexed(builder.export(name.as_name(), *kind, *index, *ty)),
        Command::AppendNames => without_index(builder.append_names()),
        Command::Custom { name, data } => without_index(custom(builder, name.as_str(), data)),
        Command::RawCustom { bytes } => without_index(builder.raw_custom_section(bytes)),
    }
}

/// Makes the calls that the commands describe on a new builder, up to the first that fails.
#[cycle(running)]
fn run_all<A: Allocator, B: Allocator + Copy>(
    commands: &Vec<Command<A>, A>,
    alloc: B,
) -> Result<ComponentBuilder<B>, Fault>
    ensures accepted { IfOk result (λ b. Holds b (led [] (commands_view commands.now.items))
        × NoCause (first_cause [] (commands_view commands.now.items))) }
    ensures refused { IfErr result
        (IsRefusal (first_cause [] (commands_view commands.now.items))) }
{
    let mut builder = match ComponentBuilder::new(alloc) {
        Ok(builder) => builder,
        Err(fault) => return Err(fault),
    };
    for command in commands {
        match run(command, alloc, &mut builder) {
            Ok(Ok(_)) => {}
            Ok(Err(fault)) => return Err(fault),
            Err(fault) => return Err(fault),
        }
    }
    Ok(builder)
}

/// Adds a core type by its encoder. Returns `Err` if that fails, which leaves the builder
/// unfinished.
fn core_type_of<A: Allocator, B: Allocator>(
    builder: &mut ComponentBuilder<B>,
    debug_name: Option<&str>,
    ty: &CoreTypeTree<A>,
) -> Result<Result<Option<u32>, Fault>, Fault>
    ensures { StepsRun builder.old builder.new result
        (Add (core_type_entry (option_copied debug_name.entry) (core_type_view ty.now))) }
{
    match builder.core_type(debug_name) {
        Ok((index, encoder)) => match encoder.tree(ty) {
            Ok(()) => Ok(Ok(Some(index))),
            Err(fault) => Err(fault),
        },
        Err(fault) => Ok(Err(fault)),
    }
}

/// Adds a type by its encoder. Returns `Err` if that fails, which leaves the builder unfinished.
fn type_of<A: Allocator, B: Allocator>(
    builder: &mut ComponentBuilder<B>,
    debug_name: Option<&str>,
    ty: &TypeTree<A>,
) -> Result<Result<Option<u32>, Fault>, Fault>
    ensures { StepsRun builder.old builder.new result
        (Add (type_entry (option_copied debug_name.entry) (type_view ty.now))) }
{
    match builder.ty(debug_name) {
        Ok((index, encoder)) => match encoder.tree(ty) {
            Ok(()) => Ok(Ok(Some(index))),
            Err(fault) => Err(fault),
        },
        Err(fault) => Ok(Err(fault)),
    }
}

/// Adds a custom section.
fn custom<B: Allocator>(
    builder: &mut ComponentBuilder<B>,
    name: &str,
    bytes: &[u8],
) -> Result<(), Fault>
    ensures { EntersWithoutIndex builder.old builder.new result (custom_entry name.now bytes.now) }
{
    builder.custom_section(&CustomSection { name, data: bytes })
}

/// Returns the result of a call that returns an index.
fn indexed(answer: Result<u32, Fault>) -> Result<Result<Option<u32>, Fault>, Fault>
    ensures { result ≡ Ok (indexed_of answer) }
{
    match answer {
        Ok(index) => Ok(Ok(Some(index))),
        Err(fault) => Ok(Err(fault)),
    }
}

/// Returns the result of a call that returns no index.
fn without_index(answer: Result<(), Fault>) -> Result<Result<Option<u32>, Fault>, Fault>
    ensures { result ≡ Ok (without_index_of answer) }
{
    match answer {
        Ok(()) => Ok(Ok(None)),
        Err(fault) => Ok(Err(fault)),
    }
}

fn as_deref<A: Allocator>(name: &Option<String<A>>) -> Option<&str>
    ensures { option_copied result ≡ option_map string_bytes name.now }
{
    match name {
        None => None,
        Some(name) => Some(name.as_str()),
    }
}

/// The results of a run's commands, and the bytes.
#[derive(Drop)]
pub struct Built<A: Allocator = Global> {
    /// One result per command: the index of its item, if that has one, or why the command was
    /// refused. Custom sections and names have no index.
    pub answers: Vec<Result<Option<u32>, Fault>, A>,
    /// The component.
    pub bytes: Vec<u8, A>,
}

/// Makes the calls that the commands describe, in order, on a new builder, and finishes. Returns
/// the bytes, and one result per command. A refused command adds nothing, and the commands after it
/// still run, unless it is that of a type, which may end the run.
///
/// # Errors
///
/// Fails with `Memory`, or with the fault for which a type is refused, after the commands before
/// that type ran.
///
/// ```
/// let import = Command::Import {
///     name: NameTree::from(String::from_str(alloc, "file")?),
///     ty: ComponentTypeRef::Type(TypeBounds::SubResource),
/// };
/// let built = build(alloc, &[import])?;
/// let mut refused = false;
/// for answer in &built.answers {
///     // Ok(Some(index)), Ok(None), or why the command was refused
///     refused = refused || answer.is_err();
/// }
/// let bytes = built.bytes;
/// ```
pub fn build<A: Allocator + Copy, B: Allocator>(
    alloc: A,
    commands: &[Command<B>],
) -> Result<Built<A>, Fault>
    // There are entries that the commands and their results lead to, and the bytes are the
    // component of their items.
    ensures ran { IfOk result (λ b. (es : List Entry)
        × Ran (map command_view commands.now) b.answers.items es
        × (b.bytes.items ≡ whole (items es))) }
    // Their items are encodable.
    ensures encodable { IfOk result (λ b. (es : List Entry)
        → Ran (map command_view commands.now) b.answers.items es → IsEncodable (items es)) }
    // If none of them is raw, the bytes have one reading, strictly and widely: the sections into
    // which they are cut.
    ensures one_reading { IfOk result (λ b. (es : List Entry)
        → Ran (map command_view commands.now) b.answers.items es → HasNoRaw (items es)
        → (mode : Spelling) (ss : List Section)
        → Reading mode b.bytes.items ss ↔ (ss ≡ runs (items es))) }
    // And no other encodable items, none of them raw, have these bytes.
    ensures one_list { IfOk result (λ b. (es : List Entry)
        → Ran (map command_view commands.now) b.answers.items es → HasNoRaw (items es)
        → (xs : List Item) → HasNoRaw xs → IsEncodable xs
        → (whole xs ≡ b.bytes.items) ↔ (xs ≡ items es)) }
    // It fails with `Memory`, or at a type after a prefix of the commands ran.
    ensures refused { IfErr result (λ fault. IsMemory fault
        ⊎ IsStopped (map command_view commands.now) fault) }
{
    let mut running = Running::new(alloc)?;
    let mut answers = Vec::new(alloc);
    for command in commands {
        let answer = match running.step(command) {
            Ok(answer) => answer,
            Err(fault) => return Err(fault),
        };
        answers.push(answer)?;
    }
    let bytes = running.finish()?;
    Ok(Built { answers, bytes })
}

/// Runs commands one by one, where `build` takes all of them at once. A refused command changes
/// nothing, and the next one runs as if it had not been made: a type that fails while it is written
/// is discarded.
///
/// ```
/// let mut running = Running::new(alloc)?;
/// let index = running.run(command)?;
/// let bytes = running.finish()?;
/// ```
#[derive(Drop)]
pub struct Running<A: Allocator = Global> {
    builder: ComponentBuilder<A>,
    alloc: A,
}

impl<A: Allocator> Model for Running<A> {
    ghost use Rattle.wasm_encoder.specs.Prelude.{HasRunSome};
    ghost use Rattle.wenc_builder.specs.Prelude.{State};

    ghost Value = { State };

    ghost view = { λ r. r.builder };

    ghost invariant = { λ r. HasRunSome r.builder };
}

impl<A: Allocator + Copy> Running<A> {
    /// Creates a component without items, before the first command. Fails only if an allocation
    /// fails (`Memory`).
    #[tactic(auto, using(crate::proofs::Run::run_new))]
    pub fn new(alloc: A) -> Result<Self, Fault>
        ensures none { IfOk result (λ running. HasRun running [] []) }
        ensures refused { IfErr result IsMemory }
    {
        Ok(Running {
            builder: ComponentBuilder::new(alloc)?,
            alloc,
        })
    }

    /// Makes the call that a command describes, after the earlier ones. Returns the index of the
    /// item that is added, if it has one: custom sections and names have none. Fails with the fault
    /// for which the command is refused.
    #[tactic(auto, using(crate::proofs::Run::one_more))]
    pub fn run<B: Allocator>(&mut self, command: &Command<B>) -> Result<Option<u32>, Fault>
        ensures ran { RunsNext self.old self.new result (command_view command.now) }
        ensures refused { OnErr result
            ((es : List Entry) → Holds self.old es → Holds self.new es) }
    {
        match self.step(command) {
            Ok(outcome) => outcome,
            Err(fault) => Err(fault),
        }
    }

    /// Makes the call that a command describes. Returns the call's result, or `Err` if the encoder
    /// of a type failed; that type is discarded.
    #[tactic(auto, using(crate::proofs::Run::run_more, crate::proofs::Run::run_back))]
    fn step<B: Allocator>(
        &mut self,
        command: &Command<B>,
    ) -> Result<Result<Option<u32>, Fault>, Fault>
        ensures { StepsBack self.old self.new result (command_view command.now) }
    {
        match run(command, self.alloc, &mut self.builder) {
            Ok(answer) => Ok(answer),
            Err(fault) => {
                self.builder.discard_unfinished();
                Err(fault)
            }
        }
    }

    /// Returns all bytes of the component. Allocates nothing, and never fails.
    #[tactic(auto, using(crate::proofs::Run::run_finished))]
    pub fn finish(self) -> Result<Vec<u8, A>, Fault>
        ensures ok { IsOk result }
        ensures held { (es : List Entry) → Holds self es
            → IfOk result (λ v. v.items ≡ whole (items es)) }
        ensures some { IfOk result (λ v.
            ∥ ((es : List Entry) × Holds self es × (v.items ≡ whole (items es))
            × AllByRecursion StartIsNameless es) ∥₁) }
        // If no item is raw, the bytes have one reading, strictly and widely: the sections into
        // which the items are cut.
        ensures one_reading { IfOk result (λ v. (es : List Entry) → Holds self es
            → HasNoRaw (items es) → (mode : Spelling) (ss : List Section)
            → Reading mode v.items ss ↔ (ss ≡ runs (items es))) }
    {
        self.builder.finish()
    }
}
