//! Listed components that are built again.
ghost use Rattle.std.specs.List.{AllByRecursion, flat_map};
ghost use Rattle.std.specs.Prelude.{◌≡◌, ◌++◌, List, map, IfSome, OnOk, IsOk};
ghost use Rattle.wasm_encoder.specs.Prelude.{command_view, command_of, Ran};
ghost use Rattle.wenc_base.specs.Prelude.{Wide};
ghost use Rattle.wenc_builder.specs.Prelude.{Entry, items as items_of, Section, members, Reading};
ghost use Rattle.wenc_builder.specs.Prelude.{whole};
ghost use Rattle.wenc_list.specs.Prelude.{item_view};

use std::alloc::{AllocError, Allocator};
use wasm_encoder::laws::an_item_becomes_its_command;
use wasm_encoder::{Built, Command, ItemTree, build, list};

/// Adds the commands made from these items.
fn add_commands<A: Allocator>(
    commands: &mut Vec<Command<A>, A>,
    items: Vec<ItemTree<A>, A>,
) -> Result<(), AllocError>
    ensures { OnOk result (map command_view commands.new.items
        ≡ map command_view commands.old.items ++ map command_of (map item_view items.items)) }
{
    for item in items {
        commands.push(Command::from(item))?;
    }
    Ok(())
}

/// Lists a component and builds its items again, unless memory runs out or it can't be listed. If
/// no command is refused, the items are those that were read.
pub fn rebuilt<A: Allocator + Copy>(alloc: A, bytes: &[u8]) -> Option<Built<A>>
    ensures { IfSome result (λ built. (ss : List Section) × Reading Wide bytes.now ss
        × ((es : List Entry) × Ran (map command_of (flat_map members ss)) built.answers.items es
        × (built.bytes.items ≡ whole (items_of es))
        × (AllByRecursion IsOk built.answers.items → items_of es ≡ flat_map members ss))) }
{
    an_item_becomes_its_command();
    let listing = match list(alloc, bytes) {
        Ok(listing) => listing,
        Err(_) => return None,
    };
    let mut commands = Vec::new(alloc);
    for section in listing.sections {
        if let Err(_) = add_commands(&mut commands, section.items) {
            return None;
        }
    }
    match build(alloc, &commands) {
        Ok(built) => Some(built),
        Err(_) => None,
    }
}
