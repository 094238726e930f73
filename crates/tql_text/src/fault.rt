//! Why a text is no condition.
use tql_lex::LexFault;
use tql_parse::ParseFault;
use tql_types::TypeFault;

/// Says why a text is no condition: the first fault of its tokens, else of its syntax, else of its
/// types. Out of memory is a fault of its own here, and none of these three.
#[derive(Clone, Copy, Debug, PartialEq, Eq)]
pub enum TextFault {
    Lex(LexFault),
    Parse(ParseFault),
    Types(TypeFault),
    Memory,
}
