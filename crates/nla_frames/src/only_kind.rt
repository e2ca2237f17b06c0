//! The kind that a list sets itself, as an action does: the text of its one attribute that sets a kind.

ghost use Rattle.std.specs.Prelude.{◌≡◌, ◌++◌, List, ℕ, [], Option};
ghost use Rattle.nla_frames.specs.OnlyKind.{text_set, kind_after, Summarizes};
ghost use Rattle.nla_frames.specs.Place.{kind_before, kinds_set};

/// An attribute that may set the kind of the attributes around it.
pub trait SetsKind {
    ghost sets: { Self → Option (List ℕ) };

    /// The kind that it sets, if any.
    fn kind_set(&self) -> Option<&str>
        ensures { text_set result ≡ Self.sets self.now };
}

/// The number of kinds that a list sets: none, one or several.
#[derive(Clone, Copy, PartialEq, Eq, Debug)]
pub enum OnlyKind<'a> {
    /// No kind.
    Missing,
    /// Exactly one kind.
    One(&'a str),
    /// Two kinds or more, whether or not they are equal.
    Several,
}

impl<'a> OnlyKind<'a> {
    /// Counts one more attribute, which sets this kind, if any.
    pub fn and(self, set: Option<&'a str>) -> OnlyKind<'a>
        ensures { (kinds : List (List ℕ)) → Summarizes self.entry kinds
            → Summarizes result (kinds ++ kind_before (text_set set.entry) []) }
    {
        match (self, set) {
            (only, None) => only,
            (OnlyKind::Missing, Some(kind)) => OnlyKind::One(kind),
            (_, Some(_)) => OnlyKind::Several,
        }
    }
}

/// The kinds that the attributes of a list set.
pub fn only_kind_set<T: SetsKind>(items: &[T]) -> OnlyKind<'_>
    ensures { Summarizes result (kinds_set T.sets items.now) }
{
    let mut only = OnlyKind::Missing;
    for item in items {
        only = only.and(item.kind_set());
    }
    only
}

/// The kind in force after an element that sets `set`, if anything.
pub fn kind_then<'a>(kind: &'a str, set: Option<&'a str>) -> &'a str
    ensures { result.now ≡ kind_after kind.now (text_set set.entry) }
{
    match set {
        Some(text) => text,
        None => kind,
    }
}
