//! Laws: different values have different texts, and parsing a value's text returns the value. Each is the contract of a
//! function that does nothing.

ghost use Rattle.std.specs.Prelude.{◌≡◌, ◌^◌, ◌<◌, List, ℕ, Some};
ghost use Rattle.hex.specs.Hex.{IsBytes, encode_lower};
ghost use Rattle.tc_texts.specs.Addresses.{mac_text, ipv4_text, ipv6_text};
ghost use Rattle.tc_texts.specs.Handle.{handle_text, handle_of};
ghost use Rattle.tc_texts.specs.Hex.{hex_text};
ghost use Rattle.tc_texts.specs.Info.{filter_info, priority_of, protocol_of};
ghost use Rattle.tc_texts.specs.Reading.{IsInjective, GivesBack};

/// Different MAC addresses have different texts, and parsing the text of one returns it.
pub fn mac_texts()
    ensures injective { IsInjective mac_text 6 }
    ensures read { GivesBack mac_text 6 }
{}

/// Different IPv4 addresses have different texts, and parsing the text of one returns it.
pub fn ipv4_texts()
    ensures injective { IsInjective ipv4_text 4 }
    ensures read { GivesBack ipv4_text 4 }
{}

/// Different IPv6 addresses have different texts, and parsing the text of one returns it.
pub fn ipv6_texts()
    ensures injective { IsInjective ipv6_text 16 }
    ensures read { GivesBack ipv6_text 16 }
{}

/// Different handles have different texts, and `tc` parses the text of one as that handle.
pub fn handle_texts()
    ensures injective { (a b : ℕ) → a < 2 ^ 32 → b < 2 ^ 32 → handle_text a ≡ handle_text b → a ≡ b }
    ensures read { (a : ℕ) → a < 2 ^ 32 → handle_of (handle_text a) ≡ Some a }
{}

/// Different bytes have different hex texts, the same as the crate `hex` writes.
pub fn hex_texts()
    ensures injective { (a b : List ℕ) → IsBytes a → IsBytes b → hex_text a ≡ hex_text b → a ≡ b }
    ensures hex { (a : List ℕ) → IsBytes a → encode_lower a ≡ hex_text a }
{}

/// `tcm_info` of a filter and its pair of priority and protocol determine each other.
pub fn filter_infos(priority: u16, protocol: u16, info: u32)
    ensures priority { priority_of (filter_info priority protocol) ≡ priority }
    ensures protocol { protocol_of (filter_info priority protocol) ≡ protocol }
    ensures word { filter_info (priority_of info) (protocol_of info) ≡ info }
{}
