//! The laws of rewriting (reading bytes and writing the value), as contracts of empty functions.

ghost use Rattle.std.specs.Prelude.{◌≡◌, ◌↔◌, List, ℕ, ◌+◌, ◌-◌};
ghost use Rattle.tc_canon.specs.Canonical.{CanonTc, CanonAct};
ghost use Rattle.tc_meaning.specs.Message.{Message};
ghost use Rattle.tc_meaning.specs.Whole.{tc_words, ReadsTc, tc_bytes, TypedTc, FitsTc, SettledTc, action_words, ReadsAct, act_bytes, TypedAct, FitsAct, SettledAct};
ghost use Rattle.tc_laws.specs.Loose.{is_loose_tc, is_loose_act, nuls_act};
ghost use Rattle.tc_laws.specs.Norm.{norm_tc, norm_act, next_act};
ghost use Rattle.tc_laws.specs.Rewriting.{Rewriting, Ends};

/// Rewriting bytes as a traffic control message: after one rewrite they are canonical.
pub fn tc_rewriting(bytes: &[u8])
    ensures { Rewriting tc_words is_loose_tc norm_tc (λ m. 1) bytes.now }
{}

/// Rewriting bytes as an action message. Each rewrite takes one NUL off the end of each warning, so bytes that aren't
/// canonical become canonical after exactly n + 1 rewrites, where n is the longest run of trailing NULs in a warning
/// as read.
pub fn action_rewriting(bytes: &[u8])
    ensures { Rewriting action_words is_loose_act norm_act (λ m. nuls_act m + 1) bytes.now }
{}

/// One rewrite of a traffic control message: its bytes are canonical, and read as the norm.
pub fn tc_step(bytes: &[u8])
    ensures written { (m : Message) → ReadsTc bytes.now m → FitsTc m → CanonTc (tc_bytes m) }
    ensures written_norm { (m : Message) → ReadsTc bytes.now m → FitsTc m
        → ReadsTc (tc_bytes m) (norm_tc m) }
{}

/// One rewrite of an action message: its bytes read as the message with one NUL less at the end of each warning. They
/// are canonical if and only if there was none.
pub fn action_step(bytes: &[u8])
    ensures reads { (m : Message) → ReadsAct bytes.now m → FitsAct m
        → ReadsAct (act_bytes m) (next_act m) }
    ensures fits { (m : Message) → FitsAct m → FitsAct (next_act m) }
    ensures typed { (m : Message) → TypedAct m → TypedAct (next_act m) }
    ensures nuls { (m : Message) → nuls_act (next_act m) ≡ nuls_act m - 1 }
    ensures norm { (m : Message) → norm_act (next_act m) ≡ norm_act m }
    ensures canonical { (m : Message) → ReadsAct bytes.now m → FitsAct m
        → CanonAct (act_bytes m) ↔ (nuls_act m ≡ 0) }
{}

/// Two byte lists become the same canonical bytes by rewriting if and only if their readings have the same norm.
pub fn tc_same_norm(first: &[u8], second: &[u8])
    ensures { (m n : Message) (c d : List ℕ) → Ends tc_words first.now m c
        → Ends tc_words second.now n d → (c ≡ d) ↔ (norm_tc m ≡ norm_tc n) }
{}

/// Two byte lists become the same canonical bytes by rewriting as action messages if and only if their readings have
/// the same norm.
pub fn action_same_norm(first: &[u8], second: &[u8])
    ensures { (m n : Message) (c d : List ℕ) → Ends action_words first.now m c
        → Ends action_words second.now n d → (c ≡ d) ↔ (norm_act m ≡ norm_act n) }
{}

/// Settled messages that fit are equal if and only if their bytes are.
pub fn same_bytes()
    ensures tc { (m n : Message) → TypedTc m → FitsTc m → SettledTc m → TypedTc n → FitsTc n
        → SettledTc n → (m ≡ n) ↔ (tc_bytes m ≡ tc_bytes n) }
    ensures action { (m n : Message) → TypedAct m → FitsAct m → SettledAct m → TypedAct n
        → FitsAct n → SettledAct n → (m ≡ n) ↔ (act_bytes m ≡ act_bytes n) }
{}
