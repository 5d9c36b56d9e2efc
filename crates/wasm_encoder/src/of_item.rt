//! Conversion of listed items to the commands that add them.
ghost use Rattle.wasm_encoder.specs.Prelude.{command_view, command_of};
ghost use Rattle.wenc_list.specs.Prelude.{item_view};

use crate::command::Command;
use std::alloc::Allocator;
use wenc_list::ItemTree;

impl<A: Allocator> From<ItemTree<A>> for Command<A> {
    ghost use Rattle.std.specs.Prelude.{◌≡◌};

    ghost from_gives = { λ item command. command_view command ≡ command_of (item_view item) };

    /// Returns the command that adds this item, without a debug name; a nested component is added
    /// by its bytes. Allocates nothing.
    fn from(item: ItemTree<A>) -> Command<A> {
        match item {
            ItemTree::Module(bytes) => Command::CoreModule {
                debug_name: None,
                bytes,
            },
            ItemTree::CoreInstance(instance) => Command::CoreInstance {
                debug_name: None,
                instance,
            },
            ItemTree::CoreType(ty) => Command::CoreType {
                debug_name: None,
                ty,
            },
            ItemTree::Component(bytes) => Command::ComponentRaw {
                debug_name: None,
                bytes,
            },
            ItemTree::Instance(instance) => Command::Instance {
                debug_name: None,
                instance,
            },
            ItemTree::Alias(alias) => Command::Alias {
                debug_name: None,
                alias,
            },
            ItemTree::Type(ty) => Command::Type {
                debug_name: None,
                ty,
            },
            ItemTree::Canon(canon) => Command::Canon {
                debug_name: None,
                canon,
            },
            ItemTree::Start {
                function,
                args,
                results,
            } => Command::Start {
                function,
                args,
                results,
            },
            ItemTree::Import { name, ty } => Command::Import { name, ty },
            ItemTree::Export {
                name,
                kind,
                index,
                ty,
            } => Command::Export {
                name,
                kind,
                index,
                ty,
            },
            ItemTree::Custom { name, data } => Command::Custom { name, data },
        }
    }
}
