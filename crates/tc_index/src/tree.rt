//! A law: the attributes that are found in a message are the ones of the value that it reads as.

ghost use Rattle.nla_frames.specs.Reading.{keep};
ghost use Rattle.tc_canon.specs.Layouts.{tc_header, action_message_header};
ghost use Rattle.tc_canon.specs.Tables.Messages.{attributes, action_message_attributes};
ghost use Rattle.tc_meaning.specs.Tree.{attributes_of};
ghost use Rattle.tc_meaning.specs.Message.{Message, ReadsMessage, ReadsWith};
ghost use Rattle.tc_index.specs.Attributes.{tc_items, action_items};
ghost use Rattle.tc_index.specs.Spots.{AreAt, spots_in};

/// If a traffic control message can be read, its attributes are those of the value: in order, each before those nested
/// in it, of the same types and depths, and no frame is malformed.
pub fn tc_tree(bytes: &[u8])
    ensures { (m : Message) → ReadsMessage tc_header attributes bytes.now m
        → AreAt (tc_items bytes.now) (spots_in 0 (attributes_of m.body)) }
{}

/// If an action message can be read, its attributes are those of the value, as in `tc_tree`.
pub fn action_tree(bytes: &[u8])
    ensures { (m : Message)
        → ReadsWith keep action_message_header action_message_attributes bytes.now m
        → AreAt (action_items bytes.now) (spots_in 0 (attributes_of m.body)) }
{}
