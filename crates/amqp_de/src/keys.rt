//! Where a name is among keys.

ghost use Rattle.std.specs.Prelude.{◌≡◌, position};
ghost use Rattle.amqp_value.specs.TreeOf.{tree_of};
ghost use Rattle.amqp_de.specs.Fields.{is_name};

use amqp_value::Value;
use std::collections::VecDeque;

// Returns whether the key is the string `name`.
fn is_name(key: &Value, name: &str) -> bool
    ensures { result ≡ is_name name.now (tree_of key.now) }
{
    match key {
        Value::String(text) => text.as_str() == name,
        _ => false,
    }
}

/// Returns the index of the first entry whose key is the string `name`.
pub(crate) fn find(pairs: &VecDeque<(Value, Value)>, name: &str) -> Option<usize>
    ensures { result ≡ position (λ e. is_name name.now (tree_of e.0)) pairs.now.items }
{
    pairs.iter().position(|pair| is_name(&pair.0, name))
}
