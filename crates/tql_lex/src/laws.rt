//! Laws of the tokens of a text.

ghost use Rattle.std.specs.Prelude.{◌≡◌, ◌≤◌, ◌<◌, ℕ, List, ◌++◌, length, true, Ok, Err};
ghost use Rattle.tql_lex.specs.declared.kind.Kind.{Kind as TheKind};
ghost use Rattle.tql_lex.specs.declared.fault.LexFault.{LexFault as TheFault};
ghost use Rattle.tql_lex.specs.declared.fault.LexFault.TheVariants.{TooLong};
ghost use Rattle.tql_lex.specs.declared.token.Token.{Token as TheToken};
ghost use Rattle.tql_lex.specs.Tokens.{lexed};
ghost use Rattle.tql_lex.specs.Faults.{FaultIn};
ghost use Rattle.tql_lex.specs.Spelling.{Spells, ends_before, AreTokens, in_order, no_number_below};

/// States that a text of at most 4,096 bytes has these tokens if and only if it is their spellings
/// one behind another. Each ends before what stands behind it, and only blanks and line feeds stand
/// between them.
pub fn tokens_are_spelled()
    ensures { (text : List ℕ) (tokens : List TheToken)
        → (lexed text ≡ Ok tokens → (length text ≤ 4096) × AreTokens 0 text tokens)
        × (length text ≤ 4096 → AreTokens 0 text tokens → lexed text ≡ Ok tokens) }
{}

/// States that no longer token stands at the place of a token that ends before what stands behind
/// it.
pub fn tokens_are_the_longest()
    ensures { (spelling rest : List ℕ) (kind : TheKind) → Spells spelling kind
        → ends_before kind rest ≡ true
        → (other more : List ℕ) (k : TheKind) → spelling ++ rest ≡ other ++ more → Spells other k
        → length other ≤ length spelling }
{}

/// States that the tokens of a text stand in order and within it, and that no number is below 0.
pub fn tokens_are_in_order()
    ensures { (text : List ℕ) (tokens : List TheToken) → lexed text ≡ Ok tokens
        → in_order 0 tokens (length text) × no_number_below tokens }
{}

/// States that a text of more than 4,096 bytes is too long, and that another has a fault if and
/// only if its cause stands behind blanks and whole tokens. The causes are a byte with which no
/// token begins, a text without an end, and all digits of a number that is too great.
pub fn faults_have_causes()
    ensures { (text : List ℕ)
        → (4096 < length text → lexed text ≡ Err (TooLong (length text)))
        × ((fault : TheFault) → length text ≤ 4096
        → (lexed text ≡ Err fault → FaultIn 0 text fault)
        × (FaultIn 0 text fault → lexed text ≡ Err fault)) }
{}
