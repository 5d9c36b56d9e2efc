//! Names of imports and exports, and type references.
ghost use Rattle.std.specs.Prelude.{◌≡◌, ◌≢◌, ◌++◌, ℕ, List, length, OnOk, IfOk, IfErr};
ghost use Rattle.wenc_base.specs.Prelude.{Appends, itself, IsMemory, as_itself, as_seen};
ghost use Rattle.wenc_base.specs.Prelude.{serves_itself};
ghost use Rattle.wenc_parts.specs.Prelude.{type_bounds, type_bounds_lawful, component_export_kind};
ghost use Rattle.wenc_parts.specs.Prelude.{kind_of, type_reference, type_reference_lawful};
ghost use Rattle.wenc_parts.specs.Prelude.{extern_name, extern_name_view, name_options};
ghost use Rattle.wenc_parts.specs.Prelude.{extern_name_lawful, option_entry, plain_name};
ghost use Rattle.wenc_parts.specs.Prelude.{name_tree_view};
ghost use Rattle.std.specs.Cow.{cow_str_bytes};
ghost use Rattle.std.specs.Option.{option_map};
ghost use Rattle.std.specs.String.{string_bytes};

use crate::exports::ComponentExportKind;
use crate::types::ComponentValType;
use std::alloc::{Allocator, Global};
use std::borrow::CowStr;
use wenc_base::{Delimited, DelimitedEq, Encode, Fault, Prefix, Tagged, encode_byte};

/// The bounds of an imported or exported type (component model, binary format, `typebound`).
#[derive(Clone, Copy, PartialEq, Eq, Hash)]
pub enum TypeBounds {
    /// Equal to the type with this index.
    Eq(u32),
    /// A fresh resource type.
    SubResource,
}

impl Encode for TypeBounds {
    ghost piece = { λ b. type_bounds b };

    fn encode<A: Allocator>(&self, sink: &mut Vec<u8, A>) -> Result<(), Fault> {
        match self {
            TypeBounds::Eq(index) => Prefix(0x00, index).encode(sink),
            TypeBounds::SubResource => encode_byte(0x01, sink),
        }
    }
}

impl Delimited for TypeBounds {
    ghost reads_back = { as_itself type_bounds_lawful };

    ghost written = { λ _. serves_itself };
}

impl DelimitedEq for TypeBounds {
    ghost alike = { itself _ };
}

/// The type of an import, or the type ascribed to an export (component model, binary format,
/// `externdesc`).
#[derive(Clone, Copy, PartialEq, Eq, Hash)]
pub enum ComponentTypeRef {
    /// A core module, by the index of its core type.
    Module(u32),
    /// A function, by the index of its type.
    Func(u32),
    /// A value of this type.
    Value(ComponentValType),
    /// A type within these bounds.
    Type(TypeBounds),
    /// An instance, by the index of its type.
    Instance(u32),
    /// A component, by the index of its type.
    Component(u32),
}

impl ComponentTypeRef {
    /// Returns the kind of the item, whose encoding begins that of the reference.
    #[tactic(auto, using(crate::specs::laws::Imports::kind_begins))]
    pub fn kind(&self) -> ComponentExportKind
        ensures is { result ≡ kind_of self.now }
        ensures begins { (rest : List ℕ)
            × ((type_reference self.now).text
            ≡ (component_export_kind (kind_of self.now)).text ++ rest) }
    {
        match self {
            ComponentTypeRef::Module(_) => ComponentExportKind::Module,
            ComponentTypeRef::Func(_) => ComponentExportKind::Func,
            ComponentTypeRef::Value(_) => ComponentExportKind::Value,
            ComponentTypeRef::Type(_) => ComponentExportKind::Type,
            ComponentTypeRef::Instance(_) => ComponentExportKind::Instance,
            ComponentTypeRef::Component(_) => ComponentExportKind::Component,
        }
    }
}

impl Encode for ComponentTypeRef {
    ghost piece = { λ r. type_reference r };

    #[inline(always)]
    fn encode<A: Allocator>(&self, sink: &mut Vec<u8, A>) -> Result<(), Fault> {
        let kind = self.kind();
        match self {
            ComponentTypeRef::Module(index)
            | ComponentTypeRef::Func(index)
            | ComponentTypeRef::Instance(index)
            | ComponentTypeRef::Component(index) => (kind, *index).encode(sink),
            ComponentTypeRef::Value(ty) => (kind, *ty).encode(sink),
            ComponentTypeRef::Type(bounds) => (kind, *bounds).encode(sink),
        }
    }
}

impl Delimited for ComponentTypeRef {
    ghost reads_back = { as_itself type_reference_lawful };

    ghost written = { λ _. serves_itself };
}

impl DelimitedEq for ComponentTypeRef {
    ghost alike = { itself _ };
}

/// The name of an import or export, with its options (component model, binary format, `importname'`
/// and `exportname'`).
///
/// ```
/// let mut name = ComponentExternName::from("wall:clock/now@1");
/// name.version_suffix = Some(CowStr::Borrowed(".2.3"));
/// ```
#[derive(Drop)]
pub struct ComponentExternName<'a, A: Allocator = Global> {
    /// The name.
    pub name: CowStr<'a, A>,
    /// The name of the interface that the item implements (`implements`).
    pub implements: Option<CowStr<'a, A>>,
    /// The rest of the version, following the part in the name (`versionsuffix`).
    pub version_suffix: Option<CowStr<'a, A>>,
    /// The name of the item elsewhere (`external-id`).
    pub external_id: Option<CowStr<'a, A>>,
}

impl<'a, A: Allocator> ComponentExternName<'a, A> {
    fn option_count(&self) -> u32
        ensures { result ≡ length (name_options (extern_name_view self.now)) }
    {
        u32::from(self.implements.is_some())
            + u32::from(self.version_suffix.is_some())
            + u32::from(self.external_id.is_some())
    }

    /// Appends the encoding of a name that has options.
    #[tactic(auto, using(crate::proofs::Names::optioned_serves))]
    #[cold]
    #[inline(never)]
    fn encode_with_options<B: Allocator>(&self, sink: &mut Vec<u8, B>) -> Result<(), Fault>
        requires { length (name_options (extern_name_view self.now)) ≢ 0 }
        ensures appended { Appends (extern_name (extern_name_view self.now)).text
            (extern_name (extern_name_view self.now)).Cause ⊥ sink.old.items sink.new.items result }
        ensures fits { OnOk result (extern_name (extern_name_view self.now)).Fits }
    {
        let name = self.name.as_str();
        let count = self.option_count();
        let implements = OptionEntry(0x00, &self.implements);
        let version_suffix = OptionEntry(0x01, &self.version_suffix);
        let external_id = OptionEntry(0x02, &self.external_id);
        let options = (count, (implements, (version_suffix, external_id)));
        Prefix(0x02, &(name, options)).encode(sink)
    }

    /// Returns a copy of the name.
    ///
    /// # Errors
    ///
    /// Fails only if an allocation fails.
    pub fn clone(&self) -> Result<Self, Fault>
    where
        A: Clone,
        ensures same { IfOk result (λ n. extern_name_view n ≡ extern_name_view self.now) }
        ensures refused { IfErr result IsMemory }
    {
        Ok(ComponentExternName {
            name: self.name.clone()?,
            implements: self.implements.clone()?,
            version_suffix: self.version_suffix.clone()?,
            external_id: self.external_id.clone()?,
        })
    }
}

impl<'a, A: Allocator> Encode for ComponentExternName<'a, A> {
    ghost piece = { λ n. extern_name (extern_name_view n) };

    #[tactic(auto, using(crate::proofs::Names::plain_serves))]
    #[inline(always)]
    fn encode<B: Allocator>(&self, sink: &mut Vec<u8, B>) -> Result<(), Fault> {
        if self.option_count() != 0 {
            return self.encode_with_options(sink);
        }
        Tagged(0x00, &self.name.as_str()).encode(sink)
    }
}

impl<'a, A: Allocator> Delimited for ComponentExternName<'a, A> {
    ghost reads_back = { as_seen extern_name_view extern_name_lawful };

    ghost written = { λ _. serves_itself };
}

/// An option of a name, preceded by its tag, or nothing if there is none.
#[derive(Drop)]
struct OptionEntry<'a, 'b, A: Allocator>(u8, &'b Option<CowStr<'a, A>>);

impl<'a, 'b, A: Allocator> Encode for OptionEntry<'a, 'b, A> {
    ghost piece = { λ o. option_entry o.0 (option_map cow_str_bytes o.1.now) };

    fn encode<B: Allocator>(&self, sink: &mut Vec<u8, B>) -> Result<(), Fault> {
        match self.1 {
            None => Ok(()),
            Some(text) => Prefix(self.0, &text.as_str()).encode(sink),
        }
    }
}

impl<'a> From<&'a str> for ComponentExternName<'a> {
    ghost from_gives = { λ s n. extern_name_view n ≡ plain_name s.now };

    fn from(name: &'a str) -> ComponentExternName<'a> {
        ComponentExternName {
            name: CowStr::Borrowed(name),
            implements: None,
            version_suffix: None,
            external_id: None,
        }
    }
}

impl<'a> From<&'a String> for ComponentExternName<'a> {
    ghost use Rattle.std.specs.String.{string_bytes};

    ghost from_gives = { λ s n. extern_name_view n ≡ plain_name (string_bytes s.now) };

    fn from(name: &'a String) -> ComponentExternName<'a> {
        ComponentExternName::from(name.as_str())
    }
}

impl<'a> From<String> for ComponentExternName<'a> {
    ghost use Rattle.std.specs.String.{string_bytes};

    ghost from_gives = { λ s n. extern_name_view n ≡ plain_name (string_bytes s) };

    fn from(name: String) -> ComponentExternName<'a> {
        ComponentExternName {
            name: CowStr::Owned(name),
            implements: None,
            version_suffix: None,
            external_id: None,
        }
    }
}

/// The options of a name, as owned strings.
#[derive(Drop)]
pub struct NameOptions<A: Allocator = Global> {
    /// The name of the interface that the item implements.
    pub implements: Option<String<A>>,
    /// The rest of the version, following the part in the name.
    pub version_suffix: Option<String<A>>,
    /// The name of the item elsewhere.
    pub external_id: Option<String<A>>,
}

/// An owned `ComponentExternName`, for commands.
#[derive(Drop)]
pub struct NameTree<A: Allocator = Global> {
    /// The name.
    pub name: String<A>,
    /// Its options. They are boxed, since few names have any.
    pub options: Option<Box<NameOptions<A>, A>>,
}

impl<A: Allocator> From<String<A>> for NameTree<A> {
    ghost use Rattle.std.specs.String.{string_bytes};

    ghost from_gives = { λ s n. name_tree_view n ≡ plain_name (string_bytes s) };

    fn from(name: String<A>) -> NameTree<A> {
        NameTree {
            name,
            options: None,
        }
    }
}

impl<A: Allocator> NameTree<A> {
    /// Borrows the name. Does not allocate.
    pub fn as_name(&self) -> ComponentExternName<'_>
        ensures { extern_name_view result ≡ name_tree_view self.now }
    {
        let name = self.name.as_str();
        match &self.options {
            None => ComponentExternName::from(name),
            Some(options) => ComponentExternName {
                name: CowStr::Borrowed(name),
                implements: borrowed(&options.implements),
                version_suffix: borrowed(&options.version_suffix),
                external_id: borrowed(&options.external_id),
            },
        }
    }
}

fn borrowed<A: Allocator>(text: &Option<String<A>>) -> Option<CowStr<'_>>
    ensures { option_map cow_str_bytes result ≡ option_map string_bytes text.now }
{
    match text {
        None => None,
        Some(text) => Some(CowStr::Borrowed(text.as_str())),
    }
}
