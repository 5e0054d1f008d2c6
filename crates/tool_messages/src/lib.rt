// What people are told: references, refusals and options in words.
#![tactic(auto)]

mod counts;
mod marks;
mod named;
mod quotes;
mod reasons;
mod references;

pub use counts::{Count, Negative};
pub use marks::say_marked;
pub use named::say_options;
pub use quotes::{Address, Quoted, say_bytes};
pub use reasons::{say_reason, say_refusal};
pub use references::{SchemeName, say_components};
