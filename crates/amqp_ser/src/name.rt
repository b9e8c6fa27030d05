//! A symbol that is given by its text.

ghost use Rattle.std.specs.Prelude.{Some};
ghost use Rattle.amqp_ser.specs.Tree.{scalar, symbol};

use crate::serialize::Serialize;
use crate::serializer::Serializer;
use amqp_data::SymbolRef;

/// A symbol, such as the descriptor of a described value: `&Name("a:b")`.
///
/// Like `SymbolRef::from("a:b")`. Its tree contains the text itself, where that of a `SymbolRef`
/// contains the result of a call, so the prover finds the tree of what it describes.
#[derive(Drop)]
pub struct Name<'a>(pub &'a str);

impl Serialize for Name<'_> {
    ghost tree = { λ n. Some (scalar (symbol n.0.now)) };

    #[inline(always)]
    fn serialize<S: Serializer>(&self, serializer: &mut S) -> Result<S::Ok, S::Error> {
        SymbolRef::from(self.0).serialize(serializer)
    }
}
