ghost use Rattle.text_lex.specs.Spelling.{WritesToken, HasTokens, IsLine, HasLines};

/// What spells tokens is read as these tokens: a token and a blank add the token to a line, whatever follows.
pub fn spelled_tokens()
    ensures token { WritesToken }
    ensures tokens { HasTokens }
    ensures line { IsLine }
{}

/// A text of whole lines, a line feed behind each, is read as these lines.
pub fn written_lines()
    ensures { HasLines }
{}
