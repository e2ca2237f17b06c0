//! Tables of flags.

// The named flags of a type, and one without a name with all bits, so that every bit is known.
macro_rules! flags {
    ($($name:ident),*; $all:expr) => {
        &[
            $(Flag { name: stringify!($name), value: Self::$name },)*
            Flag { name: "", value: $all },
        ]
    };
}

pub(crate) use flags;
