//! The error of listing a component, with the byte that can't be read.
ghost use Rattle.std.specs.Prelude.{◌≡◌};
ghost use Rattle.wenc_list.specs.Prelude.{fault_of_list};
ghost use Rattle.wenc_list.specs.declared.refusal.ListRefusal.TheVariants.{Memory as NoMemory};

use crate::cursor::{SectionItems, SectionRefusal, item_fault, section_fault};
use crate::fault::ListFault;
use std::alloc::{AllocError, AllocFailed};
use wenc_read::NestedRefusal;

/// Why a component can't be listed.
#[derive(Clone, Copy)]
pub enum ListRefusal<'a> {
    /// An allocation failed.
    Memory,
    /// The bytes don't begin with the header of a component.
    Header,
    /// No section is next.
    Section {
        /// The byte offset at which it should begin.
        place: usize,
        /// Why.
        refusal: SectionRefusal<'a>,
    },
    /// In a section no item is next, or bytes follow the last one.
    Item {
        /// The number of items that the section says it has.
        count: u32,
        /// What remains of the section.
        left: SectionItems<'a>,
        /// Why.
        refusal: NestedRefusal,
    },
}

impl ListRefusal<'_> {
    /// Returns the fault, without what can't be read in the section.
    pub fn fault(self) -> ListFault
        ensures { result ≡ fault_of_list self.entry }
    {
        match self {
            ListRefusal::Memory => ListFault::Memory,
            ListRefusal::Header => ListFault::NotAComponent { place: 0 },
            ListRefusal::Section { place, refusal } => section_fault(refusal, place),
            ListRefusal::Item { left, refusal, .. } => item_fault(&left, refusal),
        }
    }
}

impl<'a> From<AllocError> for ListRefusal<'a> {
    ghost from_gives = { λ _ e. e ≡ NoMemory };

    fn from(_error: AllocError) -> ListRefusal<'a> {
        ListRefusal::Memory
    }
}

impl<'a, T: Drop> From<AllocFailed<T>> for ListRefusal<'a> {
    ghost from_gives = { λ _ e. e ≡ NoMemory };

    fn from(_error: AllocFailed<T>) -> ListRefusal<'a> {
        ListRefusal::Memory
    }
}
