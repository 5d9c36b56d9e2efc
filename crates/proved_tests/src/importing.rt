//! Sections of imports, and reading their encoding.
ghost use Rattle.std.specs.Prelude.{◌≡◌, ◌++◌, ℕ, List, OnOk};
ghost use Rattle.wenc_base.specs.Prelude.{counted, Spelling};
ghost use Rattle.wenc_sections.specs.Prelude.{Import, import_item};

use std::alloc::Allocator;
use wasm_encoder::laws::{sections_are_read, what_is_finished_has_some};
use wasm_encoder::{ComponentImportSection, Encode, Fault};

/// Encodes a section of imports: whatever calls were made on it, the encoding is read as a list of
/// imports, whatever follows.
pub fn read_back<A: Allocator, B: Allocator>(
    imports: &ComponentImportSection<A>,
    sink: &mut Vec<u8, B>,
) -> Result<(), Fault>
    ensures { OnOk result (∥ ((text : List ℕ) × (is : List Import)
        × (sink.new.items ≡ sink.old.items ++ text)
        × ((mode : Spelling) (rest : List ℕ)
        → (counted import_item is).Reads mode (text ++ rest) rest)) ∥₁) }
{
    what_is_finished_has_some();
    sections_are_read();
    imports.encode(sink)?;
    Ok(())
}
