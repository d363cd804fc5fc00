//! What bytes of JSON mean, whoever reads them.
//!
//! The main contract is that of `bytes_have_one_meaning`: bytes spell at most one tree, and those of at most 32 MiB spell
//! one or have a fault. They are laws, with nothing to run.
#![tactic(auto)]

mod laws;

pub use laws::{
    bytes_have_one_meaning, documents_are_those_of_the_grammar, numbers_are_those_of_the_grammar,
    texts_are_those_of_the_grammar,
};
