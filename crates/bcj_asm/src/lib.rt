//! Assembles instructions with labels into the words of RV32IM.
//!
//! `specs/Forms.antt` says how many words each item takes, `specs/Rounds.antt` what holds of the rounds in which branches become
//! short, `specs/Assembly.antt` which words stand where for given forms, and `specs/Reach.antt` that each jump and branch of
//! these words reaches its label.
#![tactic(auto)]

mod assembling;
mod forms;
mod item;
mod laws;
mod places;
mod rounds;

pub use assembling::{AsmStop, Assembled, assemble, assemble_with_places};
pub use item::{Code, Item, Items, Label, Places};
pub use laws::{branches_settle, labels_are_reached};
