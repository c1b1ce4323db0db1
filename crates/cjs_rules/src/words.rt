//! Texts of nodes, compared with fixed words.
ghost use Rattle.std.specs.Prelude.{◌≡◌};
ghost use Rattle.cjs_rules.specs.Nodes.{here, section};
ghost use Rattle.cjs_rules.specs.Words.{is_ident, is_plain_str};

use kinds::kind::Kind;
use text::{is_word, plain_of};
use tree::Node;

/// Whether a node is an Ident that reads so.
pub fn is_ident(node: Node, word: &[u8]) -> bool
    ensures { result ≡ is_ident (section node.entry) word.now (here node.entry) }
{
    node.is(Kind::Ident) && is_word(node.text(), word)
}

/// Whether a node is a Str that has a plain reading.
pub fn is_plain_str(node: Node) -> bool
    ensures { result ≡ is_plain_str (section node.entry) (here node.entry) }
{
    node.is(Kind::Str) && plain_of(node.text()).is_some()
}
