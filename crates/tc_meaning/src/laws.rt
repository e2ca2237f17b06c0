//! The laws of both messages, as contracts of empty functions.

ghost use Rattle.std.specs.Prelude.{◌≡◌, ◌↔◌, List, ℕ, Ok, Err, Bool, IsTrue, true};
ghost use Rattle.std.specs.Bool.{Decides};
ghost use Rattle.nla_frames.specs.declared.error.DecodeError.{DecodeError};
ghost use Rattle.nla_frames.specs.declared.error.DecodeError.TheVariants.{OutOfMemory};
ghost use Rattle.nla_frames.specs.Frame.{Frame, IsWireFrame};
ghost use Rattle.nla_frames.specs.Value.{IsBytes};
ghost use Rattle.nla_frames.specs.Codec.{Laws, IsWireValue};
ghost use Rattle.tc_canon.specs.Descriptor.{Class, Table, Rows, Kinds};
ghost use Rattle.tc_canon.specs.Layouts.{tc_header};
ghost use Rattle.tc_canon.specs.Tables.Statistics.{stats2};
ghost use Rattle.tc_canon.specs.Tables.Actions.{actions, action_attributes, action_option_kinds};
ghost use Rattle.tc_canon.specs.Tables.Flower.{flower_options, mpls_options, lse_options};
ghost use Rattle.tc_canon.specs.Tables.Options.{option_kinds};
ghost use Rattle.tc_canon.specs.Tables.Messages.{attributes, action_message_attributes};
ghost use Rattle.tc_canon.specs.Canonical.{CanonClass, CanonTable};
ghost use Rattle.tc_meaning.specs.Own.{kind_of_attribute, read_own};
ghost use Rattle.tc_meaning.specs.OwnGrammar.{OneOwn};
ghost use Rattle.tc_meaning.specs.Meaning.{short, class_codec, table_codec};
ghost use Rattle.tc_meaning.specs.Nested.{ReadsNested, ReadsOwn, ReadsOptions};
ghost use Rattle.tc_meaning.specs.Sound.{is_sound_class, is_sound_table, is_sound_rows, is_sound_kinds};
ghost use Rattle.tc_meaning.specs.Tree.{Content, Attribute};
ghost use Rattle.tc_meaning.specs.Message.{Message};
ghost use Rattle.tc_meaning.specs.Equal.{same_content, same_attribute, same_message};
ghost use Rattle.tc_meaning.specs.Whole.{Correspond, tc_words, action_words, FitsTc, SettledTc, FitsAct, SettledAct};

use nla_frames::FrameMeaning;

/// Traffic control messages: reading is the grammar, a message that fits reads back if and only if it is settled, and
/// settled messages that fit correspond one to one to canonical bytes.
pub fn tc_message(bytes: &[u8])
    ensures { Correspond tc_words bytes.now }
{}

/// Action messages: reading is the grammar, a message that fits reads back if and only if it is settled, and settled
/// messages that fit correspond one to one to canonical bytes.
pub fn action_message(bytes: &[u8])
    ensures { Correspond action_words bytes.now }
{}

/// It is decidable whether a message fits.
pub fn fits_or_not()
    ensures tc { (m : Message) → (fits : Bool) × (IsTrue fits ↔ FitsTc m) }
    ensures action { (m : Message) → (fits : Bool) × (IsTrue fits ↔ FitsAct m) }
{}

/// It is decidable whether a message is settled.
pub fn settled_or_not()
    ensures tc { (m : Message) → (settled : Bool) × (IsTrue settled ↔ SettledTc m) }
    ensures action { (m : Message) → (settled : Bool) × (IsTrue settled ↔ SettledAct m) }
{}

/// It is decidable whether two messages, two attributes, or the contents of two attributes are equal.
pub fn equal_or_not()
    ensures messages { (m n : Message) → Decides (same_message m n) (m ≡ n) }
    ensures attributes { (x y : Attribute) → Decides (same_attribute x y) (x ≡ y) }
    ensures contents { (x y : Content) → Decides (same_content x y) (x ≡ y) }
{}

/// Lists of frames that set their own kind, such as an action. `read_own` returns values if and only if every frame of
/// type 1 has a text, there is one such frame, and the frames are read under its text. It returns a fault if and only
/// if that is the first fault: a broken frame, a frame of type 1 without a text, no kind, several kinds, or a frame
/// that has no reading.
pub fn own_grammar<T: FrameMeaning>(bytes: &[u8])
    ensures { OneOwn T.codec.read bytes.now (read_own T.codec.read bytes.now) }
{}

/// Reading and writing are inverses for every class and every table that passes its test: a value that fits reads back
/// if and only if it is settled, and a value that was read and fits is written as the same bytes if and only if they
/// are canonical. All tables pass their test. The value of a nested list of any table is read as the grammar of lists
/// says, and so is a list that sets its own kind. A message's options are a list of its kind's table under a known
/// kind, and kept raw under any other.
pub fn tables()
    ensures classes { (c : Class) → is_sound_class c ≡ true
        → Laws IsWireValue (short (class_codec c)) (CanonClass c) }
    ensures tables { (t : Table) → is_sound_table t ≡ true
        → Laws IsWireFrame (table_codec t) (CanonTable t) }
    ensures lists { (t : Table) (kind bytes : List ℕ) → IsBytes bytes → ReadsNested t kind bytes }
    ensures own_lists { (rows : Rows) (kind bytes : List ℕ) → IsBytes bytes
        → ReadsOwn rows kind bytes }
    ensures options { (kinds : Kinds) (rows : Rows) (kind : List ℕ) (f : Frame)
        → ReadsOptions kinds rows kind f }
    ensures sound_attributes { is_sound_rows attributes ≡ true }
    ensures sound_action_message_attributes { is_sound_rows action_message_attributes ≡ true }
    ensures sound_action_attributes { is_sound_rows action_attributes ≡ true }
    ensures sound_action_option_kinds { is_sound_kinds action_option_kinds ≡ true }
    ensures sound_option_kinds { is_sound_kinds option_kinds ≡ true }
    ensures sound_actions { is_sound_class actions ≡ true }
    ensures sound_stats2 { is_sound_rows stats2 ≡ true }
    ensures sound_flower { is_sound_rows flower_options ≡ true }
    ensures sound_mpls { is_sound_rows mpls_options ≡ true }
    ensures sound_lse { is_sound_rows lse_options ≡ true }
{}
