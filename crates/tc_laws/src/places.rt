//! Laws of frames at other places: exchanged neighbours, and inserted frames of an unknown type.

ghost use Rattle.std.specs.Prelude.{◌≡◌, ◌↔◌, ◌⊎◌, ◌≤◌, ℕ, List, [], ◌∷◌, ◌++◌, length, Ok, true};
ghost use Rattle.nla_frames.specs.Frame.{Frame, type_of};
ghost use Rattle.nla_frames.specs.Value.{IsBytes};
ghost use Rattle.tc_canon.specs.Tables.Messages.{attributes, action_message_attributes};
ghost use Rattle.tc_meaning.specs.Tree.{Attribute, known, items, attributes_of};
ghost use Rattle.tc_meaning.specs.OwnGrammar.{OwnReads};
ghost use Rattle.tc_meaning.specs.Whole.{ReadsTc, ReadsAct};
ghost use Rattle.tc_laws.specs.Order.{InFull, exchanged, Exchanges, read_action, read_action_attribute, ReadsAction};
ghost use Rattle.tc_laws.specs.Unknown.{is_outside, put_in, KeepsUnknown};

use nla_frames::FrameMeaning;

/// Bytes that are frames, each padded in full, can be split after any of them and joined again.
pub fn frames_in_full()
    ensures joined { (front back : List ℕ) (fs gs : List Frame) → InFull front fs → InFull back gs
        → InFull (front ++ back) (fs ++ gs) }
    ensures parted { (bytes : List ℕ) (fs gs : List Frame) → InFull bytes (fs ++ gs)
        → (front back : List ℕ) × (bytes ≡ front ++ back) × InFull front fs × InFull back gs }
{}

/// Order doesn't matter in a list of frames that set their own kind: if all of them are padded in full, two neighbours
/// can be exchanged, and their readings are exchanged with them.
pub fn own_order<T: FrameMeaning>()
    ensures order { Exchanges (OwnReads T.codec.read) }
    ensures exchanged { (l r : List T.Seen) (x y : T.Seen)
        → exchanged (length l) (l ++ x ∷ y ∷ r) ≡ l ++ y ∷ x ∷ r }
{}

/// Order doesn't matter in an action: its frame's value is a list that sets its own kind, and it reads as those
/// attributes under the frame's type, and as nothing else.
pub fn order_in_an_action()
    ensures order { (kind : List ℕ) (word : ℕ) → Exchanges (ReadsAction kind word) }
    ensures grammar { (kind : List ℕ) (word : ℕ) (value : List ℕ) (xs : List Attribute)
        → IsBytes value → ReadsAction kind word value xs ↔ OwnReads read_action_attribute value xs }
    ensures attributes { (kind : List ℕ) (f : Frame) (x : Attribute) → read_action kind f ≡ Ok x
        → (xs : List Attribute) × (x ≡ known (type_of f.word) (items (attributes_of xs))) }
{}

/// A frame of a type that the message's table doesn't have can be inserted at any place among the attributes of either
/// message, if all of them are padded in full: it is kept raw there, and everything else is read as before.
pub fn unknown_types()
    ensures tc { KeepsUnknown 20 attributes ReadsTc }
    ensures action { KeepsUnknown 4 action_message_attributes ReadsAct }
    ensures outside_tc { (n : ℕ)
        → (is_outside n attributes ≡ true) ↔ ((n ≡ 0) ⊎ ((n ≡ 9) ⊎ (13 ≤ n))) }
    ensures outside_action { (n : ℕ)
        → (is_outside n action_message_attributes ≡ true) ↔ ((n ≡ 0) ⊎ (6 ≤ n)) }
    ensures put_in { (l r : List Attribute) (x : Attribute)
        → put_in (length l) x (l ++ r) ≡ l ++ x ∷ r }
{}
