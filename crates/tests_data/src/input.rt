//! A message, whatever bytes it is.

ghost use Rattle.std.specs.Prelude.{◌≡◌, IfOk, replicate};
ghost use Rattle.std.specs.List.{flat_map};
ghost use Rattle.tests_data.specs.Inputs.{header_len, after_zeros};

use std::alloc::{AllocError, Global};

/// The message type that bytes are taken for.
#[derive(Clone, Copy, Debug)]
pub enum Form {
    /// A traffic control message.
    Tc,

    /// An action message.
    Action,
}

impl Form {
    /// A header of zeros.
    pub fn header(self) -> &'static [u8]
        ensures { result.now ≡ replicate (header_len self) 0 }
    {
        match self {
            Form::Tc => &[0; 20],
            Form::Action => &[0; 4],
        }
    }
}

/// The bytes of a message, or what is taken for them.
#[derive(Drop, Debug)]
pub struct Input {
    pub form: Form,
    pub bytes: Vec<u8>,
}

impl Input {
    /// A header of zeros, and attributes after it.
    pub fn of_frames(alloc: Global, form: Form, frames: &[&[u8]]) -> Result<Input, AllocError>
        ensures form { IfOk result (λ input. input.form ≡ form) }
        ensures bytes { IfOk result (λ input.
            input.bytes.items ≡ after_zeros form (flat_map (λ frame. frame.now) frames.now)) }
    {
        let mut bytes = form.header().to_vec(alloc)?;
        for frame in frames {
            bytes.extend_from_slice(frame)?;
        }
        Ok(Input { form, bytes })
    }
}
