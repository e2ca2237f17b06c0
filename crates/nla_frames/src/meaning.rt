//! The meaning of the types of this workspace, for contracts only.

ghost use Rattle.std.specs.Prelude.{List, ℕ};
ghost use Rattle.nla_frames.specs.Codec.{Codec};
ghost use Rattle.nla_frames.specs.Frame.{Frame};

/// The meaning of a type of attributes: its abstract value, and how that value is read from a frame under a kind and
/// written as one.
pub trait FrameMeaning {
    ghost Seen: { Type 0 };

    ghost see: { Self → Seen };

    ghost codec: { Codec Frame Seen };
}

/// A type that defines which frames are canonical. `laws::lists` lifts the definition to lists.
pub trait CanonMeaning: FrameMeaning {
    ghost Canon: { List ℕ → Frame → Type 0 };
}

/// The meaning of a type without a frame of its own: a record, statistics or a message.
pub trait BytesMeaning {
    ghost Seen: { Type 0 };

    ghost see: { Self → Seen };

    ghost codec: { Codec (List ℕ) Seen };
}
