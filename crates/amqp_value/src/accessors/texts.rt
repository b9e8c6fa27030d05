//! Accessors of texts and binaries, which borrow the content.

ghost use Rattle.std.specs.Prelude.{◌≡◌, option_map, string_bytes};
ghost use Rattle.std.specs.Option.{option_copied};
ghost use Rattle.amqp_data.specs.Items.{byte_buf_bytes};
ghost use Rattle.amqp_data.specs.Text.{symbol_text};
ghost use Rattle.amqp_value.specs.Accessors.{has_text};
ghost use Rattle.amqp_value.specs.Contents.{binary_in, string_in, symbol_in};

use crate::Value;

impl Value {
    /// Returns the text if the value is a string.
    ///
    /// # Example
    /// `Some("a")` for the string `a`, encoded as `a10161`. `None` for the symbol `a`, encoded as
    /// `a30161`.
    pub fn as_str(&self) -> Option<&str>
        ensures { option_copied result
            ≡ option_map (λ text. string_bytes text) (string_in self.now) }
    {
        match self {
            Value::String(text) => Some(text.as_str()),
            _ => None,
        }
    }

    /// Returns the text if the value is a symbol.
    ///
    /// # Example
    /// `Some("a")` for the symbol `a`, encoded as `a30161`. `None` for the string `a`, encoded as
    /// `a10161`.
    pub fn as_symbol(&self) -> Option<&str>
        ensures { option_copied result ≡ option_map symbol_text (symbol_in self.now) }
    {
        match self {
            Value::Symbol(name) => Some(name.as_inner().as_str()),
            _ => None,
        }
    }

    /// Returns the bytes if the value is a binary.
    ///
    /// # Example
    /// `Some` with the bytes 61, 62, 63 for the binary encoded as `a003616263`. `None` for the
    /// string `abc`, encoded as `a103616263`.
    pub fn as_binary(&self) -> Option<&[u8]>
        ensures { option_copied result ≡ option_map byte_buf_bytes (binary_in self.now) }
    {
        match self {
            Value::Binary(bytes) => Some(bytes.as_inner().as_slice()),
            _ => None,
        }
    }

    /// Returns whether the value is a string or a symbol with this text.
    ///
    /// # Example
    /// True for `a` and the values encoded as `a10161` and `a30161`, false for `a` and the binary
    /// encoded as `a00161`.
    pub fn is_text(&self, text: &str) -> bool
        ensures { result ≡ has_text text.now self.now }
    {
        match self {
            Value::String(own) => own.as_str() == text,
            Value::Symbol(own) => own.as_inner().as_str() == text,
            _ => false,
        }
    }
}
