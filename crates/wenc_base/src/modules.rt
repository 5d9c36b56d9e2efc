//! Core modules, written section by section.
ghost use Rattle.std.specs.Prelude.{◌≡◌, IfOk, IfErr, OnOk};
ghost use Rattle.wenc_base.specs.Prelude.{Appends, IsMemory, module_preamble, ◌▸◌};

use crate::fault::Fault;
use crate::section::Section;
use std::alloc::{Allocator, Global};
use std::marker::Model;

/// The bytes of a core module: its header, and the sections appended so far (WebAssembly 3.0,
/// binary format, "Modules").
///
/// Nothing checks the order of the sections.
///
/// ```
/// let mut module = Module::new(alloc)?;
/// module.section(&CustomSection {
///     name: "x",
///     data: &[],
/// })?;
/// let bytes = module.finish();
/// ```
#[derive(Drop)]
pub struct Module<A: Allocator = Global> {
    bytes: Vec<u8, A>,
}

impl<A: Allocator> Model for Module<A> {
    ghost use Rattle.std.specs.Prelude.{List, ℕ};

    ghost Value = { List ℕ };

    ghost view = { λ m. m.bytes.items };
}

impl Module {
    /// The header of each module (WebAssembly 3.0, binary format, "Modules").
    pub const HEADER: [u8; 8] = [0x00, 0x61, 0x73, 0x6d, 0x01, 0x00, 0x00, 0x00];
}

impl<A: Allocator> Module<A> {
    /// Creates a module without sections.
    ///
    /// # Errors
    ///
    /// Fails only if an allocation fails.
    pub fn new(alloc: A) -> Result<Self, Fault>
        ensures ok { IfOk result (λ m. m ≡ module_preamble.text) }
        ensures refused { IfErr result IsMemory }
    {
        let mut bytes = Vec::new(alloc);
        bytes.extend_from_slice(&<Module>::HEADER)?;
        Ok(Module { bytes })
    }

    /// Appends a section.
    ///
    /// # Errors
    ///
    /// Fails as the section's `encode` does; the module is then unchanged.
    pub fn section<S: Section>(&mut self, section: &S) -> Result<(), Fault>
        ensures appended { Appends (S.section_id section.now ▸ S.piece section.now).text
            (S.piece section.now).Cause (S.unfinished section.now) self.old self.new result }
        ensures fits { OnOk result (S.piece section.now).Fits }
    {
        section.append_to(&mut self.bytes)
    }

    /// Returns the bytes written so far.
    pub fn as_slice(&self) -> &[u8]
        ensures { result.now ≡ self.now }
    {
        self.bytes.as_slice()
    }

    /// Returns the bytes of the module.
    pub fn finish(self) -> Vec<u8, A>
        ensures { result.items ≡ self }
    {
        let Module { bytes } = self;
        bytes
    }

    /// Returns a copy of the module.
    ///
    /// # Errors
    ///
    /// Fails only if an allocation fails.
    pub fn clone(&self) -> Result<Self, Fault>
    where
        A: Clone,
        ensures same { IfOk result (λ m. m ≡ self.now) }
        ensures refused { IfErr result IsMemory }
    {
        let mut bytes = Vec::new(self.bytes.allocator().clone()?);
        bytes.extend_from_slice(self.bytes.as_slice())?;
        Ok(Module { bytes })
    }
}
