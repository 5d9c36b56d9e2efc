//! Parses a line of a script.
ghost use Rattle.std.specs.Prelude.{◌≡◌, IfOk, option_map};
ghost use Rattle.wasm_encoder.specs.Prelude.{command_view};
ghost use Rattle.wenc.specs.Prelude.{import_command, export_command, alias_command};
ghost use Rattle.wenc.specs.Prelude.{core_module_command, start_command, append_names_command};
ghost use Rattle.wenc.specs.Prelude.{command_of, line_command, words_left, unless_word_empty};
ghost use Rattle.wenc.specs.Prelude.{kind_and_index};

use crate::builtin::builtin;
use crate::kind::{kind, reference};
use crate::number::{bytes, number};
use crate::words::Words;
use std::alloc::{AllocError, Global};
use wasm_encoder::{AliasTree, Command, ComponentExportKind, NameTree};

/// Parses the kind and the index of an item with a name, which isn't empty.
fn kind_and_index(name: &str, word: &str, index: &str) -> Option<(ComponentExportKind, u32)>
    ensures { result ≡ kind_and_index name.now word.now index.now }
{
    if name.is_empty() {
        return None;
    }
    Some((kind(word)?, number(index)?))
}

/// Parses `import NAME KIND I`.
fn import(alloc: Global, words: Words) -> Result<Option<Command>, AllocError>
    ensures { IfOk result
        (λ c. option_map command_view c ≡ unless_word_empty import_command
        (words_left words.entry)) }
{
    let Some((name, word, index)) = words.three() else {
        return Ok(None);
    };
    let Some((kind, index)) = kind_and_index(name, word, index) else {
        return Ok(None);
    };
    let name = NameTree::from(String::from_str(alloc, name)?);
    let ty = reference(kind, index);
    Ok(Some(Command::Import { name, ty }))
}

/// Parses `export NAME KIND I`.
fn export(alloc: Global, words: Words) -> Result<Option<Command>, AllocError>
    ensures { IfOk result
        (λ c. option_map command_view c ≡ unless_word_empty export_command
        (words_left words.entry)) }
{
    let Some((name, word, index)) = words.three() else {
        return Ok(None);
    };
    let Some((kind, index)) = kind_and_index(name, word, index) else {
        return Ok(None);
    };
    let name = NameTree::from(String::from_str(alloc, name)?);
    Ok(Some(Command::Export {
        name,
        kind,
        index,
        ty: None,
    }))
}

/// Parses `alias-export I KIND NAME`.
fn alias_export(alloc: Global, words: Words) -> Result<Option<Command>, AllocError>
    ensures { IfOk result
        (λ c. option_map command_view c ≡ unless_word_empty alias_command
        (words_left words.entry)) }
{
    let Some((instance, word, name)) = words.three() else {
        return Ok(None);
    };
    let Some((kind, instance)) = kind_and_index(name, word, instance) else {
        return Ok(None);
    };
    let debug_name = String::from_str(alloc, name)?;
    let name = String::from_str(alloc, name)?;
    Ok(Some(Command::Alias {
        debug_name: Some(debug_name),
        alias: AliasTree::InstanceExport {
            instance,
            kind,
            name,
        },
    }))
}

/// Parses `core-module HEX`.
fn core_module(alloc: Global, words: Words) -> Result<Option<Command>, AllocError>
    ensures { IfOk result
        (λ c. option_map command_view c ≡ unless_word_empty core_module_command
        (words_left words.entry)) }
{
    let mut words = words;
    let (Some(word), None) = (words.next(), words.next()) else {
        return Ok(None);
    };
    if word.is_empty() {
        return Ok(None);
    }
    match bytes(alloc, word)? {
        Some(bytes) => Ok(Some(Command::CoreModule {
            debug_name: None,
            bytes,
        })),
        None => Ok(None),
    }
}

/// Parses `start F R A..`.
fn start(alloc: Global, words: Words) -> Result<Option<Command>, AllocError>
    ensures { IfOk result
        (λ c. option_map command_view c ≡ start_command (words_left words.entry)) }
{
    let mut words = words;
    let (Some(function), Some(results)) = (words.next(), words.next()) else {
        return Ok(None);
    };
    let (Some(function), Some(results)) = (number(function), number(results)) else {
        return Ok(None);
    };
    let mut args = Vec::new(alloc);
    while let Some(word) = words.next() {
        let Some(value) = number(word) else {
            return Ok(None);
        };
        args.push(value)?;
    }
    Ok(Some(Command::Start {
        function,
        args,
        results,
    }))
}

/// Parses `append-names`.
fn append_names(words: Words) -> Option<Command>
    ensures { option_map command_view result ≡ append_names_command (words_left words.entry) }
{
    let mut words = words;
    match words.next() {
        None => Some(Command::AppendNames),
        Some(_) => None,
    }
}

/// Returns the command that the words of a line describe, if they describe one.
fn command_of(alloc: Global, words: Words) -> Result<Option<Command>, AllocError>
    ensures { IfOk result
        (λ c. option_map command_view c ≡ unless_word_empty command_of (words_left words.entry)) }
{
    let mut words = words;
    let Some(verb) = words.next() else {
        return Ok(None);
    };
    match verb {
        "import" => import(alloc, words),
        "export" => export(alloc, words),
        "alias-export" => alias_export(alloc, words),
        "core-module" => core_module(alloc, words),
        "start" => start(alloc, words),
        "append-names" => Ok(append_names(words)),
        _ => match builtin(verb, words) {
            Some(canon) => Ok(Some(Command::Canon {
                debug_name: None,
                canon,
            })),
            None => Ok(None),
        },
    }
}

/// Returns the command that a line of text describes, if it describes one.
pub(crate) fn text_command(alloc: Global, line: &str) -> Result<Option<Command>, AllocError>
    ensures { IfOk result (λ c. option_map command_view c ≡ line_command line.now) }
{
    command_of(alloc, Words::of(line))
}

/// Returns the command that a line describes, if it describes one.
pub fn command(alloc: Global, line: &[u8]) -> Result<Option<Command>, AllocError>
    ensures { IfOk result (λ c. option_map command_view c ≡ line_command line.now) }
{
    match str::from_utf8(line) {
        Ok(line) => text_command(alloc, line),
        Err(_) => Ok(None),
    }
}
