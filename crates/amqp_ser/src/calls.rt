//! The methods that values call on a serializer, by subject.

pub mod compounds;
pub mod scalars;
