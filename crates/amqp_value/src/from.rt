//! Conversions to `Value`.
//!
//! `From` converts scalars. The conversions that allocate are functions of `Value` that take an
//! allocator. Their names begin with `try_`.

mod containers;
mod scalars;
