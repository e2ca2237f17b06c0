//! Forms, and the parts of a table, which forms name by their places.

/// A number. Little-endian unless its name ends in `Be`. A signed one is two's complement.
#[derive(Clone, Copy)]
pub enum Number {
    /// One byte.
    U8,
    /// Two bytes.
    U16,
    /// Four bytes.
    U32,
    /// Eight bytes.
    U64,
    /// One byte, signed.
    I8,
    /// Two bytes, signed.
    I16,
    /// Four bytes, signed.
    I32,
    /// Eight bytes, signed.
    I64,
    /// Two bytes, big-endian.
    U16Be,
    /// Four bytes, big-endian.
    U32Be,
    /// Eight bytes, big-endian.
    U64Be,
}

/// The format of bytes. A form, a record, a list and so on within it is given by its place in the table.
#[derive(Clone, Copy)]
pub enum Form {
    /// A number.
    Number(Number),
    /// A number, shown by its name if the names at this place have it.
    Named(Number, usize),
    /// A handle of `tc`, four bytes.
    Handle,
    /// No bytes: true if the attribute is there.
    Flag,
    /// One byte, 0 or 1.
    Truth,
    /// A text with a NUL at its end.
    Text,
    /// A text without a NUL at its end. It may contain NULs.
    Bare,
    /// Any bytes.
    Hex,
    /// This number of bytes.
    Bytes(usize),
    /// This number of padding bytes. A record shows them only if one isn't zero.
    Pad(usize),
    /// A MAC address.
    Mac,
    /// An IPv4 address.
    Ipv4,
    /// An IPv6 address.
    Ipv6,
    /// A record with these fields.
    Record(usize),
    /// Elements of this form, to the end.
    Array(usize),
    /// A fixed number of elements of this form.
    Times(usize, usize),
    /// A list of attributes with these rows.
    List(usize),
    /// A list of attributes with these rows, where each attribute of type 1 (`TCA_KIND`) sets the kind of those after it.
    InForce(usize),
    /// A list of attributes with these rows, where the first attribute of type 1 (`TCA_ACT_KIND`) sets the kind of all.
    Own(usize),
    /// A list of attributes of any type, each with a payload of this form.
    Indexed(usize),
    /// The first of these choices that the bytes follow.
    Choice(usize),
}

/// A number and its name. The types of a table are generic in their texts and lists: specs can cite a constant of a generic type, and of
/// none that has a lifetime.
#[derive(Clone, Copy)]
pub struct NameOf<N> {
    /// The number. If it is signed, its two's complement.
    pub number: u64,
    /// The name.
    pub name: N,
}

/// A field of a record. A field without a fixed width takes all bytes that are left.
#[derive(Clone, Copy)]
pub struct FieldOf<N> {
    /// The name, distinct in the record.
    pub name: N,
    /// The form.
    pub form: Form,
}

/// A row of a table of attributes.
#[derive(Clone, Copy)]
pub struct RowOf<N> {
    /// `nla_type`, with its flags.
    pub word: u16,
    /// The name.
    pub name: N,
    /// The form of the payload.
    pub form: Form,
}

/// A kind and its rows.
#[derive(Clone, Copy)]
pub struct KindRowsOf<N> {
    /// The kind.
    pub kind: N,
    /// The place of its rows.
    pub rows: usize,
}

/// A form for bytes with a prefix, and with a length if there is one.
#[derive(Clone, Copy)]
pub struct ChoiceOf<N, B> {
    /// The name.
    pub name: N,
    /// The first bytes.
    pub prefix: B,
    /// The length of the bytes. `None` if any.
    pub len: Option<usize>,
    /// The form of the bytes after the prefix.
    pub form: Form,
}

/// A part of a table.
#[derive(Clone, Copy)]
pub enum PartOf<T, N, F, R, K, C> {
    /// A form.
    One(Form),
    /// Names of numbers.
    Names(N),
    /// The fields of a record.
    Fields(F),
    /// The rows of a list of attributes, and the layer: if it isn't empty, each attribute is in an object with a member of this name.
    Rows(T, R),
    /// The rows of a list that depend on the kind: the places of the rows of every kind, of the rows of kinds without rows of their own, and
    /// of the rows of each kind. Rows of the kind come before rows of every kind. The layers of these parts have no effect.
    Kinds(usize, usize, K),
    /// Choices.
    Choices(C),
}

/// A number and its name.
pub type Name<'a> = NameOf<&'a str>;

/// A field of a record.
pub type Field<'a> = FieldOf<&'a str>;

/// A row of a table of attributes.
pub type Row<'a> = RowOf<&'a str>;

/// A kind and the place of its rows.
pub type KindRows<'a> = KindRowsOf<&'a str>;

/// A form for bytes with a prefix and a length.
pub type Choice<'a> = ChoiceOf<&'a str, &'a [u8]>;

/// A part of a table.
pub type Part<'a> = PartOf<
    &'a str,
    &'a [Name<'a>],
    &'a [Field<'a>],
    &'a [Row<'a>],
    &'a [KindRows<'a>],
    &'a [Choice<'a>],
>;
