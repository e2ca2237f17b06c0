//! Written captures are read as the packets that they were written from, in each format.

ghost use Rattle.std.specs.Prelude.{◌≡◌, ◌≢◌, ◌+◌, ◌<◌, ◌≤◌, ◌^◌, ℕ, List, [], All, Some, None, map};
ghost use Rattle.tc_capture.specs.declared.order.Order.{Order};
ghost use Rattle.tc_capture.specs.Message.{Message};
ghost use Rattle.tc_capture_laws.specs.Reading.{reading, messages_read};
ghost use Rattle.tc_capture_laws.specs.Files.{Packet, IsMessage, IsPacket, IsNoTime, IsTimed, AreAligned, HasAtMost, all_messages};
ghost use Rattle.tc_capture_laws.specs.Files.{as_read, single_as_read, timed_as_read, written_file, stream_file, timed_file, pcap_file, pcapng_file};

/// A written capture is read as the same packets in order, each with its time, its packet type and its messages, and
/// each message with its type, flags, sequence number, port and payload.
pub fn written_is_read(most: u32)
    ensures { (longest : ℕ) (packets : List Packet) → longest + 16 ≤ most → 24 ≤ most → All (IsPacket longest) packets
        → All (λ (p : Packet). AreAligned p.messages) packets
        → reading most (written_file packets) ≡ Some (map as_read packets) }
{}

/// A pcap file in either byte order is read as the packets that it was written from.
pub fn pcap_is_read(most: u32)
    ensures { (order : Order) (longest : ℕ) (packets : List Packet) → longest + 16 ≤ most → 24 ≤ most
        → All (IsPacket longest) packets
        → reading most (pcap_file order longest packets) ≡ Some (map as_read packets) }
{}

/// A pcapng file (a section header, an interface, and a block for each packet) is read as the packets that it was
/// written from.
pub fn pcapng_is_read(most: u32)
    ensures { (order : Order) (longest : ℕ) (packets : List Packet) → longest + 35 ≤ most → 32 ≤ most
        → All (IsPacket longest) packets
        → reading most (pcapng_file order packets) ≡ Some (map as_read packets) }
{}

/// A stream is read as the messages that it was written from, in order.
pub fn stream_is_read(most: u32)
    ensures { (messages : List Message) → most < 2 ^ 24 → messages ≢ [] → All IsMessage messages
        → All IsNoTime messages → All (HasAtMost most) messages
        → reading most (stream_file messages) ≡ Some (map (single_as_read None) messages) }
{}

/// A stream with times, as `rtmon` writes it, is read as the messages that it was written from, in order, each with
/// its time.
pub fn timed_stream_is_read(most: u32)
    ensures { (packets : List Packet) → 24 ≤ most → packets ≢ [] → All (IsTimed most) packets
        → reading most (timed_file packets) ≡ Some (timed_as_read packets) }
{}

/// The same messages are read from a stream, a pcap file and a pcapng file that were written from them.
pub fn formats_agree(most: u32)
    ensures pcap { (order : Order) (longest : ℕ) (packets : List Packet) → longest + 35 ≤ most → most < 2 ^ 24
        → All (IsPacket longest) packets → all_messages packets ≢ [] → All IsNoTime (all_messages packets)
        → messages_read most (pcap_file order longest packets)
        ≡ messages_read most (stream_file (all_messages packets)) }
    ensures pcapng { (order : Order) (longest : ℕ) (packets : List Packet) → longest + 35 ≤ most → most < 2 ^ 24
        → All (IsPacket longest) packets → all_messages packets ≢ [] → All IsNoTime (all_messages packets)
        → messages_read most (pcapng_file order packets)
        ≡ messages_read most (stream_file (all_messages packets)) }
{}
