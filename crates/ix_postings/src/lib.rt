//! Postings of the documents of a collection, as their lists are coded: the numbers of tokens, and the check of a coded
//! list, which sees the tokens that the list names. Run texts and index texts are checked by it.
#![tactic(auto)]

mod list_fault;
mod lists;
mod numbers;
mod positions;
mod seen_tokens;
mod token_marks;
mod token_table;

pub use list_fault::ListFault;
pub use lists::{check_list, check_posting};
pub use seen_tokens::SeenTokens;
pub use token_marks::TokenMarks;
pub use token_table::TokenTable;
