//! Imports of core modules.
ghost use Rattle.std.specs.Prelude.{List, ℕ};
ghost use Rattle.wenc_base.specs.Prelude.{name_sound, name_lawful, entity_type_sound};
ghost use Rattle.wenc_base.specs.Prelude.{entity_type_lawful};
ghost use Rattle.wenc_read.specs.Prelude.{read_by};
ghost use Rattle.wenc_sections.specs.Prelude.{triple_sound, triple_lawful};
ghost use Rattle.wenc_view.specs.Prelude.{EntityType as Type'};

use crate::view::{View, text_of};
use wenc_base::EntityType;
use wenc_read::Refusal;

/// An import of a core module: the name of the module that it is imported from, its name there, and
/// its type (WebAssembly 3.0, binary format, "Import Section").
impl<'a> View<'a> for (&'a str, &'a str, EntityType) {
    ghost Value = { List ℕ × List ℕ × Type' };

    ghost view = { λ x. (x.0.now, x.1.now, x.2) };

    ghost reading = { read_by (triple_sound name_sound name_sound entity_type_sound) (triple_lawful name_lawful name_lawful entity_type_lawful) };

    fn view_of(bytes: &'a [u8]) -> Result<((&'a str, &'a str, EntityType), &'a [u8]), Refusal> {
        let (module, rest) = text_of(bytes)?;
        let (name, rest) = text_of(rest)?;
        let (ty, rest) = EntityType::view_of(rest)?;
        Ok(((module, name, ty), rest))
    }
}
