//! Examples of commands.
ghost use Rattle.std.specs.Prelude.{◌≡◌, ◌∷◌, [], List, IfOk, Ok};
ghost use Rattle.wasm_encoder.specs.Prelude.{command_view, Ran};
ghost use Rattle.wenc_builder.specs.Prelude.{Entry, items, whole};

use std::alloc::{Allocator, Global};
use wasm_encoder::command::Running;
use wasm_encoder::{Built, Command, ComponentTypeRef, Fault, NameTree, TypeBounds, build};

/// `Command`.
pub fn command<A: Allocator + Copy>(alloc: A) -> Result<Command<A>, Fault> {
    let import = Command::Import {
        name: NameTree::from(String::from_str(alloc, "file")?),
        ty: ComponentTypeRef::Type(TypeBounds::SubResource),
    };
    Ok(import)
}

/// `build`.
pub fn run(alloc: Global) -> Result<(Vec<u8>, bool), Fault> {
    let import = Command::Import {
        name: NameTree::from(String::from_str(alloc, "file")?),
        ty: ComponentTypeRef::Type(TypeBounds::SubResource),
    };
    let built = build(alloc, &[import])?;
    let mut refused = false;
    for answer in &built.answers {
        // Ok(Some(index)), Ok(None), or why the command was refused
        refused = refused || answer.is_err();
    }
    let bytes = built.bytes;
    Ok((bytes, refused))
}

/// `Running`.
pub fn running(alloc: Global, command: &Command) -> Result<(Option<u32>, Vec<u8>), Fault>
    ensures { IfOk result (λ x. (es : List Entry)
        × Ran (command_view command.now ∷ []) (Ok x.0 ∷ []) es
        × (x.1.items ≡ whole (items es))) }
{
    let mut running = Running::new(alloc)?;
    let index = running.run(command)?;
    let bytes = running.finish()?;
    Ok((index, bytes))
}
