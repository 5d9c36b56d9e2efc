//! The kinds of sections that collect items.
ghost use Rattle.wenc_builder.specs.Prelude.{kind_id};

use wenc_parts::ComponentSectionId;

/// The kinds of items of which adjacent ones share a section.
#[derive(Clone, Copy, Debug, PartialEq, Eq)]
pub enum Kind {
    CoreInstance,
    CoreType,
    Instance,
    Alias,
    Type,
    CanonicalFunction,
    Import,
    Export,
}

impl Kind {
    ghost use Rattle.std.specs.Prelude.{◌≡◌};

    /// Returns the id of the kind's sections.
    pub fn id(self) -> u8
        ensures { result ≡ kind_id self }
    {
        match self {
            Kind::CoreInstance => u8::from(ComponentSectionId::CoreInstance),
            Kind::CoreType => u8::from(ComponentSectionId::CoreType),
            Kind::Instance => u8::from(ComponentSectionId::Instance),
            Kind::Alias => u8::from(ComponentSectionId::Alias),
            Kind::Type => u8::from(ComponentSectionId::Type),
            Kind::CanonicalFunction => u8::from(ComponentSectionId::CanonicalFunction),
            Kind::Import => u8::from(ComponentSectionId::Import),
            Kind::Export => u8::from(ComponentSectionId::Export),
        }
    }
}
