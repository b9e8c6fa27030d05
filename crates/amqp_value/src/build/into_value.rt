//! What can be an item of `list!`, or a key or a value of `map!`.

ghost use Rattle.std.specs.Prelude.{◌≡◌, MatchResult};
ghost use Rattle.amqp_data.specs.Text.{symbol_ref_text};
ghost use Rattle.amqp_ser.specs.Tree.{scalar, string, symbol};
ghost use Rattle.amqp_value.specs.TreeOf.{tree_of};
ghost use Rattle.amqp_value.specs.declared.value.Value.{Value};
ghost use Rattle.amqp_value.specs.declared.value.Value.TheVariants.{Array as ArrayValue};
ghost use Rattle.amqp_value.specs.declared.value.Value.TheVariants.{List as ListValue};
ghost use Rattle.amqp_value.specs.declared.value.Value.TheVariants.{Map as MapValue, Null};

use crate::Value;
use amqp_data::{Array, Error, OrderedMap, Symbol, SymbolRef};
use std::alloc::Global;

/// A type that becomes a value, with an allocation if necessary.
///
/// # Example
/// The text `a` becomes the string encoded as `a10161`, `()` becomes null, encoded as `40`.
pub trait IntoValue: Drop {
    /// Relates what is converted to the value.
    ghost becomes: { Self → Value → Type 0 };

    /// Returns the value.
    ///
    /// # Errors
    /// Returns `Error::OutOfMemory` if an allocation fails.
    ///
    /// # Memory
    /// A text is copied into memory from `alloc`. Other types allocate nothing.
    ///
    /// # Example
    /// The text `a` gives the string encoded as `a10161`.
    fn into_value(self, alloc: Global) -> Result<Value, Error>
        ensures { MatchResult result (becomes self) (λ e. e ≡ Error.OutOfMemory) };
}

impl<T: Into<Value> + Drop> IntoValue for T {
    ghost becomes = { T.converts };

    fn into_value(self, _alloc: Global) -> Result<Value, Error> {
        Ok(self.into())
    }
}

impl IntoValue for &str {
    ghost becomes = { λ text value. tree_of value ≡ scalar (string text.now) };

    fn into_value(self, alloc: Global) -> Result<Value, Error> {
        Value::try_from_str(alloc, self)
    }
}

impl IntoValue for SymbolRef<'_> {
    ghost becomes = { λ name value. tree_of value ≡ scalar (symbol (symbol_ref_text name)) };

    fn into_value(self, alloc: Global) -> Result<Value, Error> {
        Ok(Value::Symbol(Symbol::try_from_str(alloc, self.as_inner())?))
    }
}

impl IntoValue for () {
    ghost becomes = { λ _ value. value ≡ Null };

    fn into_value(self, _alloc: Global) -> Result<Value, Error> {
        Ok(Value::Null)
    }
}

impl IntoValue for Vec<Value> {
    ghost becomes = { λ items value. value ≡ ListValue items };

    fn into_value(self, _alloc: Global) -> Result<Value, Error> {
        Ok(Value::List(self))
    }
}

impl IntoValue for Array<Value> {
    ghost becomes = { λ elements value. value ≡ ArrayValue elements };

    fn into_value(self, _alloc: Global) -> Result<Value, Error> {
        Ok(Value::Array(self))
    }
}

impl IntoValue for OrderedMap<Value, Value> {
    ghost becomes = { λ entries value. value ≡ MapValue entries };

    fn into_value(self, _alloc: Global) -> Result<Value, Error> {
        Ok(Value::Map(self))
    }
}
