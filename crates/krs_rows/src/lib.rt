//! Rows of asks with the replies that are due, which the check computes from the definitions of krs_model. The
//! functions here have no body to speak of: their contracts are the rows, and laws that tie them to the histories of a
//! store.
#![tactic(auto)]

mod laws;
mod rows;

pub use laws::{each_ask_is_answered_as_computed, rows_are_the_histories};
pub use rows::{
    rows_of_contexts, rows_of_keyrings, rows_of_keys, rows_of_linux, rows_of_numbers,
    rows_of_records, rows_of_searches,
};
