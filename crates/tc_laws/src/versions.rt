//! The laws between version 1 of reading traffic control messages, which reads options under an unknown kind as one
//! option, and reading now, which keeps them raw.

ghost use Rattle.std.specs.Prelude.{◌≡◌, ◌⊎◌, ◌↔◌, ℕ, List, Ok, Err};
ghost use Rattle.nla_frames.specs.declared.error.DecodeError.{DecodeError};
ghost use Rattle.tc_meaning.specs.Tree.{Attribute};
ghost use Rattle.tc_meaning.specs.Message.{Message};
ghost use Rattle.tc_meaning.specs.Whole.{ReadsTc, FaultTc, TypedTc, FitsTc, SettledTc};
ghost use Rattle.tc_laws.specs.FirstVersion.{ReadsTc1, FaultTc1, read_tc1, upgrade_attribute, upgrade, WasRead, IsUpgrade};

/// Both readings of the same bytes. Version 1 returns a message if and only if its grammar reads the bytes as it, and
/// a fault if and only if that is its grammar's. Its messages are typed. Bytes that version 1 reads are now read as
/// the upgrade of its message. Every message that is read now is the upgrade of one of version 1, and its own upgrade.
/// The faults are the same.
pub fn both_readings(bytes: &[u8])
    ensures reading { (m : Message) → (read_tc1 bytes.now ≡ Ok m) ↔ ReadsTc1 bytes.now m }
    ensures fault { (e : DecodeError) → (read_tc1 bytes.now ≡ Err e) ↔ FaultTc1 bytes.now e }
    ensures typed { (m : Message) → ReadsTc1 bytes.now m → TypedTc m }
    ensures upgraded { (m : Message) → ReadsTc1 bytes.now m → ReadsTc bytes.now (upgrade m) }
    ensures all_upgraded { (n : Message) → ReadsTc bytes.now n
        → (m : Message) × ReadsTc1 bytes.now m × (upgrade m ≡ n) }
    ensures nothing_left { (n : Message) → ReadsTc bytes.now n → upgrade n ≡ n }
    ensures same_faults { (e : DecodeError) → FaultTc1 bytes.now e ↔ FaultTc bytes.now e }
{}

/// The upgrade of any message is the one message that has, at each place, the upgrade of the attribute under the kind
/// in force there. An attribute is unchanged unless version 1 reads it from a frame, which is now read as its upgrade.
/// The upgrade is its own upgrade. It is typed if the message is, and fits if the message does. A settled message is
/// unchanged.
pub fn upgrading()
    ensures each { (kind : List ℕ) (x : Attribute)
        → (upgrade_attribute kind x ≡ x) ⊎ WasRead kind x }
    ensures place_by_place { (m n : Message) → (upgrade m ≡ n) ↔ IsUpgrade m n }
    ensures twice { (m : Message) → upgrade (upgrade m) ≡ upgrade m }
    ensures typed { (m : Message) → TypedTc m → TypedTc (upgrade m) }
    ensures fits { (m : Message) → FitsTc m → FitsTc (upgrade m) }
    ensures settled { (m : Message) → SettledTc m → upgrade m ≡ m }
{}
