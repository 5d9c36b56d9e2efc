//! Lists a finished component: its sections, their items, and the number of indices that these
//! take.
//!
//! `list` reads the bytes of a component back into the trees that commands are made from. It
//! returns the one reading that the bytes have, or the exact reason why they have none.
#![tactic(auto)]

mod counts;
mod cursor;
mod debug_names;
mod fault;
mod item;
mod item_view;
pub mod laws;
mod listing;
mod members;
mod producers;
mod refusal;
mod sections;

pub use cursor::{SectionItems, SectionRefusal, Sections};
pub use debug_names::{ItemName, Names, behind_module_header, names_in, part_of};
pub use fault::ListFault;
pub use item::ItemTree;
pub use item_view::ItemView;
pub use listing::{ListedSection, Listing, list, list_or_refusal};
pub use producers::{ProducersPart, ProducersParts};
pub use refusal::ListRefusal;
