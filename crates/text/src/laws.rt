//! What is true of every text, above the reader: each function's contract is a law.
ghost use Rattle.text.specs.Grammar.{ReadByGrammar, ReadInStandardForm, HugeCountsReadAlike};

/// A text reads as a formula exactly when its words are `p`, `cnf`, the number of variables, the number of clauses,
/// and then those clauses, each its literals and `0`.
pub fn texts_are_read_by_their_grammar()
    ensures { ReadByGrammar }
{}

/// Whatever a text reads as is in standard form.
pub fn formulas_are_read_in_standard_form()
    ensures { ReadInStandardForm }
{}

/// A number of clauses too large for its type reads as it should: beyond the number of words all numbers read alike.
pub fn huge_counts_read_alike()
    ensures { HugeCountsReadAlike }
{}
