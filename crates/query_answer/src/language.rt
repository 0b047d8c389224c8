//! Tells the language of a query's text.
ghost use Rattle.std.specs.Prelude.{◌≡◌};
ghost use Rattle.ast_reader.specs.json_machine.Machine.{is_space};
ghost use Rattle.query_answer.specs.Language.{is_ast};

fn is_space(byte: u8) -> bool
    ensures { result ≡ is_space byte }
{
    byte == b' ' || byte == b'\t' || byte == b'\n' || byte == b'\r'
}

/// Whether the first byte after white space (RFC 8259, section 2) is `[`. Such a text is read as AST, any other as PQL.
pub fn is_ast(text: &[u8]) -> bool
    ensures { result ≡ is_ast text.now }
{
    for byte in text {
        if !is_space(*byte) {
            return *byte == b'[';
        }
    }
    false
}
