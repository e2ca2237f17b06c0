//! The law of the definition of the report.

ghost use Rattle.std.specs.Prelude.{◌≡◌};
ghost use Rattle.tcrewrite_lib.specs.Report.{Report, IsReport};

use tc_capture::MessageType;

/// Every text has exactly one report for each type of message.
pub fn one_report(mode: MessageType, text: &[u8])
    ensures some { (r : Report) × IsReport mode text.now r }
    ensures only { (r s : Report) → IsReport mode text.now r → IsReport mode text.now s → r ≡ s }
{}
