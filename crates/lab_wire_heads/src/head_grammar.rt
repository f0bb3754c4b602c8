//! The law that a head is read as the grammar of request heads says.
ghost use Rattle.lab_wire_heads.specs.HeadGrammar.{GrammarOfHeads};

/// Law: the head that is read at the front of a text, by its lines and words, is the head that the
/// grammar of request heads finds there (RFC 9112, as `httparse` states it). If the grammar finds
/// no head, none is read.
pub fn grammar_of_heads()
    ensures { GrammarOfHeads }
{}
