//! The types of messages that have a form.

ghost use Rattle.std.specs.Prelude.{◌≡◌};
ghost use Rattle.forms_values.specs.declared.form.Form.{Form};
ghost use Rattle.forms_kinds.specs.Table.{tc_message, action_message};
ghost use Rattle.tc_faults.specs.declared.what.What.{What as WhatType};
ghost use Rattle.tc_faults.specs.declared.what.What.TheVariants.{Action, Qdisc};

use forms_json::Form;
use forms_kinds::{ACTION_MESSAGE, TC_MESSAGE};
use std::alloc::Allocator;
use tc_faults::What;
use tc_wire::{Emitable, TcActionMessage, TcMessage};

/// A type of messages whose bytes have a form in `TcTables`.
pub trait HasForm: Emitable {
    ghost form: { Form };

    /// The form of its bytes.
    fn form() -> Form
        ensures { result ≡ form };

    ghost what: { WhatType };

    /// The object that these messages describe, for the place of a fault.
    fn what() -> What
        ensures { result ≡ what };
}

impl<A: Allocator> HasForm for TcMessage<A> {
    ghost form = { tc_message };

    ghost what = { Qdisc };

    fn form() -> Form {
        TC_MESSAGE
    }

    fn what() -> What {
        What::Qdisc
    }
}

impl<A: Allocator> HasForm for TcActionMessage<A> {
    ghost form = { action_message };

    ghost what = { Action };

    fn form() -> Form {
        ACTION_MESSAGE
    }

    fn what() -> What {
        What::Action
    }
}
