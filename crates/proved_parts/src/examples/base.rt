//! Examples of `wenc_base`.
ghost use Rattle.std.specs.Prelude.{◌≡◌, ◌++◌, ◌∷◌, [], IfOk, codes};
ghost use Rattle.wenc_base.specs.Prelude.{custom as custom_form, module_preamble};
ghost use Rattle.wenc_parts.specs.Prelude.{preamble};

use std::alloc::Allocator;
use wenc_base::{
    CoreTypeEncoder, CustomSection, Encode, Fault, Holder, Module, NameMap, ProducersField,
    ProducersSection, ValType,
};
use wenc_parts::Component;

/// `Encode`: a string, and a list of numbers.
#[tactic(auto, unfolding(wenc_base::specs::Number::groups))]
pub fn encode<A: Allocator>(alloc: A) -> Result<Vec<u8, A>, Fault>
    ensures { IfOk result (λ sink. sink.items ≡ 0x01 ∷ 0x66 ∷ 0x02 ∷ 0x01 ∷ 0x02 ∷ []) }
{
    let mut sink = Vec::new(alloc);
    "f".encode(&mut sink)?;
    [1u32, 2].as_slice().encode(&mut sink)?;
    Ok(sink)
}

/// `Holder`: the section whose one member is a pair.
pub fn holder<A: Allocator + Copy>(alloc: A) -> Result<Vec<u8, A>, Fault> {
    let mut holder = Holder::new(alloc);
    holder.add_encoded(&("f", 0u32))?;
    let mut sink = Vec::new(alloc);
    holder.encode_section(&mut sink)?;
    Ok(sink)
}

/// `CustomSection`.
pub fn custom<A: Allocator>(alloc: A) -> Result<Vec<u8, A>, Fault>
    ensures { IfOk result (λ bytes. bytes.items
        ≡ preamble.text ++ 0x00 ∷ (custom_form
        (record { label = codes "notes"; bytes = 0x2a ∷ [] })).text) }
{
    let mut component = Component::new(alloc)?;
    component.section(&CustomSection {
        name: "notes",
        data: &[0x2a],
    })?;
    let bytes = component.finish();
    Ok(bytes)
}

/// `Module`.
pub fn module<A: Allocator>(alloc: A) -> Result<Vec<u8, A>, Fault>
    ensures { IfOk result (λ bytes. bytes.items
        ≡ module_preamble.text ++ 0x00 ∷ (custom_form
        (record { label = codes "x"; bytes = [] })).text) }
{
    let mut module = Module::new(alloc)?;
    module.section(&CustomSection {
        name: "x",
        data: &[],
    })?;
    let bytes = module.finish();
    Ok(bytes)
}

/// `NameMap`.
pub fn names<A: Allocator + Copy>(alloc: A) -> Result<Vec<u8, A>, Fault> {
    let mut names = NameMap::new(alloc);
    names.append(0, "now")?;
    let mut sink = Vec::new(alloc);
    names.encode(&mut sink)?;
    Ok(sink)
}

/// `ProducersSection`.
pub fn producers<A: Allocator + Copy>(alloc: A) -> Result<Vec<u8, A>, Fault> {
    let mut languages = ProducersField::new(alloc);
    languages.value("Rust", "2024")?;
    let mut producers = ProducersSection::new(alloc);
    producers.field("language", &languages)?;

    let mut component = Component::new(alloc)?;
    component.section(&producers)?;
    let bytes = component.finish();
    Ok(bytes)
}

/// `CoreTypeEncoder`, with a holder as its parent.
pub fn core_type<A: Allocator>(alloc: A) -> Result<Holder<A>, Fault> {
    let mut holder = Holder::new(alloc);
    holder.open(&[])?;
    let encoder = CoreTypeEncoder::new(&mut holder, true);
    encoder.function([ValType::I32].into_iter(), [].into_iter())?;
    Ok(holder)
}
