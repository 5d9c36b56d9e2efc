//! The bytes of finished builders, proved from the public contracts.
ghost use Rattle.std.specs.List.{AllByRecursion};
ghost use Rattle.std.specs.Prelude.{◌≡◌, ◌↔◌, ◌∷◌, [], List, IfOk, Some, length};
ghost use Rattle.wenc_base.specs.Prelude.{Spelling};
ghost use Rattle.wenc_builder.specs.Prelude.{Entry, items, Holds, collected, HasNoRaw, Reading};
ghost use Rattle.wenc_builder.specs.Prelude.{Run, Section, defines, some_in};
ghost use Rattle.wenc_parts.specs.Prelude.{section_number};
ghost use Rattle.wenc_parts.specs.declared.component.ComponentSectionId.TheVariants as ids;
ghost use Rattle.wenc_sections.specs.declared.space.Space.TheVariants as spaces;

use std::alloc::Allocator;
use wasm_encoder::laws::{held_items_tell_bytes, one_kind_is_one_section};
use wenc_base::Fault;
use wenc_builder::ComponentBuilder;

/// Finishes two builders: if none of their items is raw, the bytes are equal if and only if the
/// items are.
pub fn two_builders<A: Allocator, B: Allocator>(
    one: ComponentBuilder<A>,
    other: ComponentBuilder<B>,
) -> Result<(Vec<u8, A>, Vec<u8, B>), Fault>
    ensures { IfOk result (λ bytes. (es fs : List Entry) → Holds one es → Holds other fs
        → HasNoRaw (items es) → HasNoRaw (items fs)
        → (bytes.0.items ≡ bytes.1.items) ↔ (items es ≡ items fs)) }
{
    held_items_tell_bytes();
    match one.finish() {
        Ok(first) => match other.finish() {
            Ok(second) => Ok((first, second)),
            Err(fault) => Err(fault),
        },
        Err(fault) => Err(fault),
    }
}

/// Finishes a builder that holds only imports: its bytes are one section of them. If they are
/// functions, there are as many functions as imports.
pub fn imports_alone<A: Allocator>(builder: ComponentBuilder<A>) -> Result<(u32, Vec<u8, A>), Fault>
    ensures one_section { IfOk result (λ r. (x : Entry) (es : List Entry) → Holds builder (x ∷ es)
        → AllByRecursion (λ y. collected y ≡ Some (section_number ids.Import)) (items (x ∷ es))
        → (mode : Spelling) (ss : List Section) → Reading mode r.1.items ss
        ↔ (ss ≡ Run (section_number ids.Import) (items (x ∷ es)) ∷ [])) }
    ensures counted { IfOk result (λ r. (es : List Entry) → Holds builder es
        → AllByRecursion (λ y. defines y ≡ some_in spaces.Funcs 1) (items es)
        → r.0 ≡ length (items es)) }
{
    one_kind_is_one_section();
    let count = builder.func_count();
    match builder.finish() {
        Ok(bytes) => Ok((count, bytes)),
        Err(fault) => Err(fault),
    }
}
