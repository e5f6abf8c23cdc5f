// The printed text of a schedule and of a refusal, on a page of fixed room, and how a text is handed out.
#![tactic(auto)]

mod examples;
mod fault;
mod handing;
mod page;
mod printing;

pub use crate::examples::{worked_listing, worked_refusal};
pub use crate::fault::Fault;
pub use crate::handing::hand_out;
pub use crate::page::Page;
pub use crate::printing::{listing_page, refusal_page};
