//! What the programs of cases share: a sheet on which they write what they tell, and the words of the lines that they
//! read.
//!
//! Who writes on a sheet gets no answer. A sheet for which memory was wanting stays so, and says it when it is read. What
//! is written, what is read, and what for, is not known here.
#![tactic(auto)]

mod sheet;
mod words;

pub use sheet::Sheet;
pub use words::{
    behind, first_word, number_at, number_in, numbers_from, quoted_in, signed_in, small_at,
    small_in, word_at, words_from,
};
