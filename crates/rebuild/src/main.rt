//! Builds the component on standard input again, by the commands of its items. Prints their results
//! and the component as `wenc` does for a script.
//!
//! Every item that can have a debug name gets one, and after the items come the names and a raw
//! custom section. Of a nested component the commands are run too, up to a depth; where it can't be
//! listed, or is deeper, its bytes are added.
//!
//! The exit status is 0, also if a command was refused. Otherwise nothing is printed, and it is 2
//! if memory ran out or `build` failed, 3 if the component can't be listed, 4 if a read or a write
//! failed.
#![tactic(auto)]

use std::alloc::{AllocError, Global};
use std::process::ExitCode;
use wasm_encoder::{Command, Fault, ItemTree, build, list};
use wenc::input::{MAX_READS, read_all};
use wenc::output::send_with_hex;
use wenc::print::answer_lines;
use wenc::status::{REFUSED, TRANSFER_FAILED, UNLISTED};

/// How deep nested components are listed.
const DEPTH: u8 = 3;

/// Returns the command of a listed item, with a debug name if it takes one.
#[cycle(commands)]
fn command(alloc: Global, item: ItemTree, depth: u8) -> Result<Command, AllocError> {
    let debug_name = Some(String::from_str(alloc, "named")?);
    Ok(match item {
        ItemTree::Module(bytes) => Command::CoreModule { debug_name, bytes },
        ItemTree::CoreInstance(instance) => Command::CoreInstance {
            debug_name,
            instance,
        },
        ItemTree::CoreType(ty) => Command::CoreType { debug_name, ty },
        ItemTree::Component(bytes) => match nested(alloc, &bytes, depth)? {
            Some(commands) => Command::Component {
                debug_name,
                commands,
            },
            None => Command::ComponentRaw { debug_name, bytes },
        },
        ItemTree::Instance(instance) => Command::Instance {
            debug_name,
            instance,
        },
        ItemTree::Alias(alias) => Command::Alias { debug_name, alias },
        ItemTree::Type(ty) => Command::Type { debug_name, ty },
        ItemTree::Canon(canon) => Command::Canon { debug_name, canon },
        other => Command::from(other),
    })
}

/// Returns the commands of a nested component.
#[cycle(commands)]
fn nested(alloc: Global, bytes: &[u8], depth: u8) -> Result<Option<Vec<Command>>, AllocError> {
    if depth == 0 {
        return Ok(None);
    }
    commands(alloc, bytes, depth - 1)
}

/// Returns the commands of a component's items, or none if it can't be listed.
#[cycle(commands)]
fn commands(alloc: Global, bytes: &[u8], depth: u8) -> Result<Option<Vec<Command>>, AllocError> {
    let Ok(listing) = list(alloc, bytes) else {
        return Ok(None);
    };
    let mut commands = Vec::new(alloc);
    for section in listing.sections {
        for item in section.items {
            commands.push(command(alloc, item, depth)?)?;
        }
    }
    Ok(Some(commands))
}

/// Returns the lines of the results, and the component, or nothing if it can't be listed.
fn rebuilt(alloc: Global, bytes: &[u8]) -> Result<Option<(Vec<u8>, Vec<u8>)>, Fault> {
    let Some(mut commands) = commands(alloc, bytes, DEPTH)? else {
        return Ok(None);
    };
    commands.push(Command::AppendNames)?;
    commands.push(Command::RawCustom {
        bytes: Vec::from_slice(alloc, b"\x01r")?,
    })?;
    let built = build(alloc, commands.as_slice())?;
    let lines = answer_lines(alloc, built.answers.as_slice())?;
    Ok(Some((lines, built.bytes)))
}

fn main(rt: HostRuntime) -> ExitCode {
    let mut input = rt.stdin();
    let Ok(bytes) = read_all(rt.alloc(), &mut input, MAX_READS) else {
        return ExitCode::from(TRANSFER_FAILED);
    };
    match rebuilt(rt.alloc(), bytes.as_slice()) {
        Ok(Some((lines, component))) => {
            match send_with_hex(&mut rt.stdout(), lines.as_slice(), component.as_slice()) {
                Ok(()) => ExitCode::SUCCESS,
                Err(_) => ExitCode::from(TRANSFER_FAILED),
            }
        }
        Ok(None) => ExitCode::from(UNLISTED),
        Err(_) => ExitCode::from(REFUSED),
    }
}
