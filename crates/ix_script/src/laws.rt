//! A law of scripts. The function does nothing: what it ensures is a fact.

ghost use Rattle.ix_script.specs.ScriptLaws.{FaultsExcludeSteps, HasOneScript, HasOneScriptFault};

use ix_query::{a_text_has_one_tree, queries_are_those_of_the_grammar};

/// A text has one list of steps or one fault, and never both.
pub fn has_steps_or_a_fault()
    ensures one_script { HasOneScript }
    ensures one_fault { HasOneScriptFault }
    ensures refused { FaultsExcludeSteps }
{
    a_text_has_one_tree();
    queries_are_those_of_the_grammar();
}
