//! The variable byte code of a number: seven bits a byte, the most significant first, the top bit
//! set in the last byte alone (Introduction to Information Retrieval, 5.3.1). Here it is written and
//! read, and here are the gaps of an ascending list and the coded list of a term's postings. A function
//! without arguments is a law: it does nothing, and what it ensures is a fact about the definitions.
#![tactic(auto)]

mod appending;
pub mod cursor;
mod decoding;
mod encoding;
mod errors;
mod laws;
mod positions;
mod short_postings;
mod skipping;
mod skips;

pub use appending::{push_code_and, push_counted, push_gaps, push_posting};
pub use decoding::{decode, first_number};
pub use encoding::{Code, code_len, encode, push_code};
pub use errors::VbError;
pub use laws::{
    ascending, codes_apart, counted_texts_come_back, gaps_are_differences, gaps_come_back,
    list_is_its_postings, list_is_short, one_code, postings_ascending, postings_come_back,
};
pub use short_postings::{ShortPosting, short_number, short_posting};
pub use skipping::skip_codes;
