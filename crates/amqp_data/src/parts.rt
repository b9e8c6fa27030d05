//! The types that own a text or a list, lent as a slice to generic functions.

ghost use Rattle.amqp_data.specs.Items.{array_items, byte_buf_bytes, transparent_items};
ghost use Rattle.amqp_data.specs.Text.{symbol_ref_text, symbol_text};

use crate::{Array, ByteBuf, Symbol, SymbolRef, TransparentVec};
use std::convert::{AsSlice, AsStr};

impl AsStr for Symbol {
    ghost text = { symbol_text };

    fn as_str(&self) -> &str {
        self.as_inner().as_str()
    }
}

impl<'a> AsStr for SymbolRef<'a> {
    ghost text = { symbol_ref_text };

    fn as_str(&self) -> &str {
        self.as_inner()
    }
}

impl AsSlice<u8> for ByteBuf {
    ghost items = { byte_buf_bytes };

    fn as_slice(&self) -> &[u8] {
        self.as_inner().as_slice()
    }
}

impl<T> AsSlice<T> for Array<T> {
    ghost items = { array_items };

    fn as_slice(&self) -> &[T] {
        self.as_inner().as_slice()
    }
}

impl<T> AsSlice<T> for TransparentVec<T> {
    ghost items = { transparent_items };

    fn as_slice(&self) -> &[T] {
        TransparentVec::as_slice(self)
    }
}
