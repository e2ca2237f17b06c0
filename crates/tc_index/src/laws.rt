//! Laws of the definitions, each the contract of a function that does nothing.

ghost use Rattle.std.specs.Prelude.{◌≡◌, ℕ, ◌+◌, ◌≤◌, ◌/◌, length};
ghost use Rattle.std.specs.List.{AllByRecursion};
ghost use Rattle.nla_frames.specs.Reading.{keep};
ghost use Rattle.tc_canon.specs.Descriptor.{table};
ghost use Rattle.tc_canon.specs.Kind.{kind_of_frame};
ghost use Rattle.tc_canon.specs.Tables.Messages.{attributes, action_message_attributes};
ghost use Rattle.tc_index.specs.Attributes.{message_items, tc_items, action_items};
ghost use Rattle.tc_index.specs.Nodes.{tc_nodes, action_nodes};
ghost use Rattle.tc_index.specs.Offsets.{ValueIsAt};

/// A message has at most one attribute for every four bytes, so that many slots hold all of them.
pub fn slots_suffice(bytes: &[u8])
    ensures tc { length (tc_nodes bytes.now) ≤ length bytes.now / 4 }
    ensures action { length (action_nodes bytes.now) ≤ length bytes.now / 4 }
{}

/// The value of each attribute is at its offset in the message.
pub fn values_at_offsets(bytes: &[u8])
    ensures tc { AllByRecursion (ValueIsAt bytes.now) (tc_items bytes.now) }
    ensures action { AllByRecursion (ValueIsAt bytes.now) (action_items bytes.now) }
{}

/// The tables nest attributes at most four deep, so iterating deeper finds no more attributes.
pub fn deep_enough(bytes: &[u8])
    ensures tc { (more : ℕ) → message_items (4 + more) 20 (table attributes) kind_of_frame bytes.now
        ≡ tc_items bytes.now }
    ensures action { (more : ℕ) → message_items (4 + more) 4 (table action_message_attributes) keep bytes.now
        ≡ action_items bytes.now }
{}
