//! The walks over key tables.
//!
//! A key table is a macro that names its fields in their order, each with its form and its key, and hands them to
//! a walk: `required` and `optional` keys, and a `part`, whose keys are in a module of their own.

/// Reads an object by a key table: the record of its elements, or the first fault in the order of the table.
macro_rules! read_table {
    ([$alloc:ident, $object:ident] $name:ident { $($field:ident: $form:ident $key:ident,)* }) => {{
        $(let $field = read_member!($form, $alloc, $object, $key);)*
        Ok($name { $($field),* })
    }};
}

macro_rules! read_member {
    (required, $alloc:ident, $object:ident, $key:ident) => {
        required($alloc, Key::$key, $object)?
    };
    (optional, $alloc:ident, $object:ident, $key:ident) => {
        optional($alloc, Key::$key, $object)?
    };
    (part, $alloc:ident, $object:ident, $part:ident) => {
        $part::read($alloc, $object)?
    };
}

/// Shows of each element of a record that its written form is read as the element.
macro_rules! read_back_table {
    ([$record:ident] $name:ident { $($field:ident: $form:ident $key:ident,)* }) => {{
        $(read_back_member!($form, $record, $field, $key);)*
    }};
}

macro_rules! read_back_member {
    (required, $record:ident, $field:ident, $key:ident) => {
        reads_back(&$record.$field)
    };
    (optional, $record:ident, $field:ident, $key:ident) => {
        may_read_back(&$record.$field)
    };
    (part, $record:ident, $field:ident, $part:ident) => {
        $part::elements_read_back(&$record.$field)
    };
}

pub(crate) use read_back_member;
pub(crate) use read_back_table;
pub(crate) use read_member;
pub(crate) use read_table;
