//! What the methods of a message do with its fields, which are listed by their numbers, kinds and names.

// The body of `read_field`.
macro_rules! read_fields {
    ($message:ident, $alloc:ident, $field:ident; $($number:literal $kind:ident $name:ident),*) => {
        match $field.number {
            $($number => $crate::fields::read_as!($kind, &mut $message.$name, $alloc, &$field.content),)*
            _ => Ok(()),
        }
    };
}

macro_rules! read_as {
    (number, $slot:expr, $alloc:ident, $content:expr) => { tink_proto::wire::read_number($slot, $content) };
    (choice, $slot:expr, $alloc:ident, $content:expr) => { tink_proto::wire::read_enum($slot, $content) };
    (bytes, $slot:expr, $alloc:ident, $content:expr) => { tink_proto::wire::read_bytes($slot, $alloc, $content) };
    (text, $slot:expr, $alloc:ident, $content:expr) => { tink_proto::wire::read_text($slot, $alloc, $content) };
    (message, $slot:expr, $alloc:ident, $content:expr) => { tink_proto::wire::read_message($slot, $alloc, $content) };
}

// The body of `write_fields`.
macro_rules! write_fields {
    ($message:ident, $alloc:ident, $out:ident; $number:literal $kind:ident $name:ident) => {
        $crate::fields::write_as!($kind, $out, $alloc, $number, $message.$name)
    };
    ($message:ident, $alloc:ident, $out:ident; $number:literal $kind:ident $name:ident, $($rest:tt)+) => {{
        $crate::fields::write_as!($kind, $out, $alloc, $number, $message.$name)?;
        $crate::fields::write_fields!($message, $alloc, $out; $($rest)+)
    }};
}

macro_rules! write_as {
    (number, $out:ident, $alloc:ident, $number:literal, $slot:expr) => {
        tink_proto::wire::put_number($out, $number, $slot)
    };
    (choice, $out:ident, $alloc:ident, $number:literal, $slot:expr) => {
        tink_proto::wire::put_enum($out, $number, $slot)
    };
    (bytes, $out:ident, $alloc:ident, $number:literal, $slot:expr) => {
        tink_proto::wire::put_bytes($out, $number, $slot.as_slice())
    };
    (text, $out:ident, $alloc:ident, $number:literal, $slot:expr) => {
        tink_proto::wire::put_text($out, $number, $slot.as_str())
    };
    (message, $out:ident, $alloc:ident, $number:literal, $slot:expr) => {
        tink_proto::wire::put_message($out, $alloc, $number, &$slot)
    };
}

// The body of `try_clone`.
macro_rules! clone_fields {
    ($message:ident, $self:ident, $alloc:ident; $($kind:ident $name:ident),*) => {
        Ok($message { $($name: $crate::fields::clone_as!($kind, $self.$name, $alloc)),* })
    };
}

macro_rules! clone_as {
    (number, $slot:expr, $alloc:ident) => { $slot };
    (choice, $slot:expr, $alloc:ident) => { $slot };
    (bytes, $slot:expr, $alloc:ident) => { $slot.try_clone($alloc)? };
    (text, $slot:expr, $alloc:ident) => { $slot.try_clone($alloc)? };
    (message, $slot:expr, $alloc:ident) => { tink_proto::wire::clone_option(&$slot, $alloc)? };
}

pub(crate) use clone_as;
pub(crate) use clone_fields;
pub(crate) use read_as;
pub(crate) use read_fields;
pub(crate) use write_as;
pub(crate) use write_fields;
