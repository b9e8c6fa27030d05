//! The macros of user-defined types, and of values written in place. `amqp_ser` has `fields!` too,
//! for crates that do not depend on this one: a crate that calls a macro depends on the crate that
//! defines it.

/// Builds the fields of a struct, in order: `fields! { "name": value, "other"?: option, .. }`.
///
/// A name is a literal, or an expression in parentheses whose value is a `&str`. After `:`, the
/// value is the field or a reference to it. After `?:`, the value is a reference to an `Option`. A
/// field that is `None` is absent: a map omits it, and a list omits it if no later field is
/// present. To serialize the fields as a list, a map from their names or a variant, wrap them in
/// `ListOf`, `MapOf`, `SymbolMapOf` or `VariantOf`.
///
/// # Example
/// `ListOf(fields! { "x": 1u8, "y"?: &None::<bool> })` is `c003015001`. `MapOf` of the same fields
/// is `c10602a101785001`.
#[macro_export]
macro_rules! fields {
    () => { () };
    ($name:tt : $value:expr $(, $($rest:tt)*)?) => {
        $crate::ser::Field { name: $name, value: $value, rest: $crate::fields!($($($rest)*)?) }
    };
    ($name:tt ? : $value:expr $(, $($rest:tt)*)?) => {
        $crate::ser::OptionalField {
            name: $name,
            value: $value,
            rest: $crate::fields!($($($rest)*)?)
        }
    };
}

/// The fields of a struct, in order: `named! { "name", "other"?, "third" = 20, .. }`.
///
/// A `?` marks an optional field, which may be absent or null. A field with `= number` is read as
/// this number if it is absent or null; for a `bool`, 0 is `false` and 1 is `true`. Inside
/// `ListOf`, `MapOf` or `AnyOf` it reads the values of the fields, which the pattern `values!`
/// destructures, and from which `built!` builds a struct.
#[macro_export]
macro_rules! named {
    () => { () };
    (@) => { () };
    (@ [$a:tt $A:ty] [$b:tt $B:ty] [$c:tt $C:ty] [$d:tt $D:ty] $($rest:tt)*) => {
        $crate::de::Four::<$A, $B, $C, $D, _> {
            first: $a,
            second: $b,
            third: $c,
            fourth: $d,
            of: std::marker::PhantomData,
            rest: $crate::named!(@ $($rest)*)
        }
    };
    (@ $([$($row:tt)*])* $name:literal $(, $($rest:tt)*)?) => {
        $crate::named!(@ $([$($row)*])* [$name $crate::de::Of<_>] $($($rest)*)?)
    };
    (@ $([$($row:tt)*])* $name:literal ? $(, $($rest:tt)*)?) => {
        $crate::named!(@ $([$($row)*])* [$name Option<_>] $($($rest)*)?)
    };
    (@ $([$($row:tt)*])* $name:literal = $default:literal $(, $($rest:tt)*)?) => {
        $crate::named!(@ $([$($row)*])* [$name $crate::de::Defaulted<_, $default>] $($($rest)*)?)
    };
    (@ [$name:tt $F:ty] $($rest:tt)*) => {
        $crate::de::One::<$F, _> {
            name: $name,
            of: std::marker::PhantomData,
            rest: $crate::named!(@ $($rest)*)
        }
    };
    ($($fields:tt)+) => { $crate::named!(@ $($fields)+) };
}

/// The pattern of the values of fields, in order: `let values! { name, other } = read(..)?;`.
#[macro_export]
macro_rules! values {
    () => { () };
    ($value:ident $(, $($rest:tt)*)?) => {
        $crate::de::FieldValues { value: $value, rest: $crate::values!($($($rest)*)?) }
    };
}

/// The variants of an enum, in order:
/// `variants! { unit, newtype, named! { "side", "note"? }, .. }`.
///
/// `unit` is a variant without a value, `newtype` is a variant with one value, and the value of a
/// variant with fields is the list of them. Inside `ByIndex` it reads one of the variants, which
/// the pattern `place!` matches.
///
/// `shape Fields` is a variant whose value is read by the shape `Fields`, which implements
/// `Nameless`. The borrow checker allows the names of the fields of the last variant with a value
/// alone; in other enums the fields of each variant are read by a type of its own.
#[macro_export]
macro_rules! variants {
    () => { () };
    (unit $(, $($rest:tt)*)?) => {
        $crate::de::UnitVariant { rest: $crate::variants!($($($rest)*)?) }
    };
    (newtype $(, $($rest:tt)*)?) => {
        $crate::de::DataVariant {
            shape: $crate::de::Of(std::marker::PhantomData),
            missing: "Expecting a value",
            rest: $crate::variants!($($($rest)*)?),
        }
    };
    (shape $shape:expr $(, $($rest:tt)*)?) => {
        $crate::de::DataVariant {
            shape: $shape,
            missing: "Expecting Value::List",
            rest: $crate::variants!($($($rest)*)?),
        }
    };
    ($fields:expr $(, $($rest:tt)*)?) => {
        $crate::de::DataVariant {
            shape: $crate::de::FullListOf($fields),
            missing: "Expecting Value::List",
            rest: $crate::variants!($($($rest)*)?),
        }
    };
}

/// Builds a value from the values of its fields: `built! { values => Point { x, y } }`, or
/// `Point(x, y)`, or a variant.
#[macro_export]
macro_rules! built {
    ($values:expr => $name:ident $(:: $variant:ident)? { $($field:ident),* $(,)? }) => {{
        let rest = $values;
        $(let $crate::de::FieldValues { value: $field, rest } = rest;)*
        let () = rest;
        $name $(:: $variant)? { $($field),* }
    }};
    ($values:expr => $name:ident $(:: $variant:ident)? ( $($field:ident),* $(,)? )) => {{
        let rest = $values;
        $(let $crate::de::FieldValues { value: $field, rest } = rest;)*
        let () = rest;
        $name $(:: $variant)? ( $($field),* )
    }};
}

/// The pattern of the alternative at a place, counted from 0: `place!(2, value)`. `place!(rest 3,
/// value)` is what follows the first three.
#[macro_export]
macro_rules! place {
    (0, $value:pat) => { $crate::de::Either::This($value) };
    (1, $value:pat) => { $crate::de::Either::Other($crate::place!(0, $value)) };
    (2, $value:pat) => { $crate::de::Either::Other($crate::place!(1, $value)) };
    (3, $value:pat) => { $crate::de::Either::Other($crate::place!(2, $value)) };
    (4, $value:pat) => { $crate::de::Either::Other($crate::place!(3, $value)) };
    (5, $value:pat) => { $crate::de::Either::Other($crate::place!(4, $value)) };
    (6, $value:pat) => { $crate::de::Either::Other($crate::place!(5, $value)) };
    (7, $value:pat) => { $crate::de::Either::Other($crate::place!(6, $value)) };
    (8, $value:pat) => { $crate::de::Either::Other($crate::place!(7, $value)) };
    (9, $value:pat) => { $crate::de::Either::Other($crate::place!(8, $value)) };
    (rest 0, $value:pat) => { $value };
    (rest 1, $value:pat) => { $crate::de::Either::Other($crate::place!(rest 0, $value)) };
    (rest 2, $value:pat) => { $crate::de::Either::Other($crate::place!(rest 1, $value)) };
    (rest 3, $value:pat) => { $crate::de::Either::Other($crate::place!(rest 2, $value)) };
    (rest 4, $value:pat) => { $crate::de::Either::Other($crate::place!(rest 3, $value)) };
    (rest 5, $value:pat) => { $crate::de::Either::Other($crate::place!(rest 4, $value)) };
    (rest 6, $value:pat) => { $crate::de::Either::Other($crate::place!(rest 5, $value)) };
    (rest 7, $value:pat) => { $crate::de::Either::Other($crate::place!(rest 6, $value)) };
    (rest 8, $value:pat) => { $crate::de::Either::Other($crate::place!(rest 7, $value)) };
    (rest 9, $value:pat) => { $crate::de::Either::Other($crate::place!(rest 8, $value)) };
    (rest 10, $value:pat) => { $crate::de::Either::Other($crate::place!(rest 9, $value)) };
}

/// Builds a list: `list![in alloc; item, ..]`, of type `Result<Value, Error>`.
///
/// An item is `null`, `sym` and a text for a symbol, or an expression of a type that is
/// [`IntoValue`](crate::value::IntoValue), such as a number, a text or a `Value`. Nested lists and
/// maps are written with `?`.
///
/// # Example
/// `list![in alloc; 1u32, "a", null]?` is encoded as `c007035201a1016140`.
#[macro_export]
macro_rules! list {
    (in $alloc:expr; $($items:tt)*) => {
        $crate::list_items!($crate::value::BuildList::new($alloc); $($items)*)
    };
}

/// Appends the items of `list!`. It is exported because `list!` expands to it.
#[macro_export]
macro_rules! list_items {
    ($built:expr;) => { $built.finish() };
    ($built:expr; null $(, $($rest:tt)*)?) => {
        $crate::list_items!($built.item(()); $($($rest)*)?)
    };
    ($built:expr; sym $text:literal $(, $($rest:tt)*)?) => {
        $crate::list_items!($built.item($crate::primitives::SymbolRef::from($text)); $($($rest)*)?)
    };
    ($built:expr; $item:expr $(, $($rest:tt)*)?) => {
        $crate::list_items!($built.item($item); $($($rest)*)?)
    };
}

/// Builds a map: `map!{in alloc; key => value, ..}`, of type `Result<Value, Error>`.
///
/// A key or a value is as an item of [`list!`](crate::list): `null`, `sym` and a text for a symbol,
/// or an expression of a type that is [`IntoValue`](crate::value::IntoValue). A value after `sym`
/// or `null` as a key is written the same way.
///
/// # Example
/// `map!{in alloc; "k" => 1u8, sym "s" => null}?` is encoded as `c10a04a1016b5001a3017340`.
#[macro_export]
macro_rules! map {
    (in $alloc:expr; $($entries:tt)*) => {
        $crate::map_entries!($crate::value::BuildMap::new($alloc); $($entries)*)
    };
}

/// Inserts the entries of `map!`. It is exported because `map!` expands to it.
#[macro_export]
macro_rules! map_entries {
    ($built:expr;) => { $built.finish() };
    ($built:expr; sym $key:literal => $($rest:tt)*) => {
        $crate::map_value!($built; $crate::primitives::SymbolRef::from($key); $($rest)*)
    };
    ($built:expr; null => $($rest:tt)*) => {
        $crate::map_value!($built; (); $($rest)*)
    };
    ($built:expr; $key:expr => $($rest:tt)*) => {
        $crate::map_value!($built; $key; $($rest)*)
    };
}

/// Inserts an entry of `map!` whose key is known. It is exported because `map!` expands to it.
#[macro_export]
macro_rules! map_value {
    ($built:expr; $key:expr; null $(, $($rest:tt)*)?) => {
        $crate::map_entries!($built.entry($key, ()); $($($rest)*)?)
    };
    ($built:expr; $key:expr; sym $text:literal $(, $($rest:tt)*)?) => {
        $crate::map_entries!($built.entry($key, $crate::primitives::SymbolRef::from($text)); $($($rest)*)?)
    };
    ($built:expr; $key:expr; $value:expr $(, $($rest:tt)*)?) => {
        $crate::map_entries!($built.entry($key, $value); $($($rest)*)?)
    };
}
