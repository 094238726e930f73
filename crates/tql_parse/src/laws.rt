//! Laws of the grammar.

ghost use Rattle.std.specs.Prelude.{◌≡◌, ℕ, List};
ghost use Rattle.tql_tree.specs.Syntax.{Syntax};
ghost use Rattle.tql_lex.specs.declared.token.Token.{Token as TheToken};
ghost use Rattle.tql_parse.specs.Grammar.{AreQueryTokens};
ghost use Rattle.tql_parse.specs.Laws.{TokensAreReadByGrammar};
ghost use Rattle.tql_parse.specs.RoundTrip.{ReadsBack};

/// States that tokens are at most one query, however many levels it has.
pub fn one_tree()
    ensures { (n m : ℕ) (ts : List TheToken) (x y : Syntax) → AreQueryTokens n ts x
        → AreQueryTokens m ts y → x ≡ y }
{}

/// States that a canonical text of at most 4,096 bytes reads back: if its query was read from a
/// text, its tokens are the same query again, places aside.
pub fn canonical_text_reads_back()
    ensures { ReadsBack }
{}

/// States that reading from left to right gives a tree if and only if the grammar does, and each
/// fault if and only if its definition holds.
pub fn tokens_are_read_by_the_grammar()
    ensures { TokensAreReadByGrammar }
{}
