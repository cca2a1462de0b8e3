//! Laws of what the program's calls promise. The functions do nothing: what they ensure is a fact.
ghost use Rattle.ix_ask.specs.Headline.{AskWritesTheNames, BuildWritesIndexText, BuildsWriteOneText};
ghost use Rattle.ix_ask.specs.Headline.{FindsOneList, ListsOneList, OpensAsThatCollection, SearchWritesTheSame};

use ix_file::{collection_has_one_index_text, index_text_tells_version_and_collection};
use ix_query::{a_query_has_one_scan, a_text_has_one_tree};
use ix_text::has_documents_or_a_fault;

/// What was built of a collection text is the index text of its collection, and there is one, whatever the plan; what
/// opens of it is the index of that collection and of no other; and what `ask` writes are exactly the names of the documents of the text
/// that satisfy the query, which are those that `search` writes of that index.
pub fn what_is_built_opens_and_answers()
    ensures built { BuildWritesIndexText }
    ensures one_text { BuildsWriteOneText }
    ensures opened { OpensAsThatCollection }
    ensures asked { AskWritesTheNames }
    ensures searched { SearchWritesTheSame }
{
    collection_has_one_index_text();
    index_text_tells_version_and_collection();
    has_documents_or_a_fault();
    a_text_has_one_tree();
    a_query_has_one_scan();
}

/// An index text gives one list for a query and one for a pattern: [`search`](crate::search) and
/// [`search_trusting`](crate::search_trusting) find the same names in it, and [`list_terms`](crate::list_terms) and
/// [`list_terms_trusting`](crate::list_terms_trusting) list the same terms.
pub fn both_ways_give_one_list()
    ensures found { FindsOneList }
    ensures listed { ListsOneList }
{
    index_text_tells_version_and_collection();
    a_text_has_one_tree();
    a_query_has_one_scan();
}
