//! What holds of every text.
ghost use Rattle.gql_lex.specs.Lexemes.{LongestToken, IgnoredText};

/// Law: the longest token is taken (GraphQL, October 2021, section 2.1): what is found has the form
/// of its kind, and no longer text that stands there has the form of any token.
pub fn longest_token()
    ensures { LongestToken }
{}

/// Law: what is passed over has the form of ignored text (GraphQL, October 2021, section 2.1), and a
/// comment goes to the end of its line.
pub fn ignored_text()
    ensures { IgnoredText }
{}
