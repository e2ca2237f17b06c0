//! Messages that were cut short or changed.

ghost use Rattle.std.specs.Prelude.{◌≡◌, ◌*◌, IfOk, All, vec_len};

use crate::input::Input;
use std::alloc::{AllocError, Global};

// A message cut at one place, or with another byte there.
fn changed(alloc: Global, input: &Input, at: usize, change: u8) -> Result<Input, AllocError>
    ensures { IfOk result (λ changed. changed.form ≡ input.now.form) }
{
    let length = if change == 0 { at } else { input.bytes.len() };
    let mut bytes = input.bytes.get(..length).unwrap_or(&[]).to_vec(alloc)?;
    if let Some(place) = bytes.get_mut(at) {
        *place = match change {
            1 => 0,
            2 => 0xff,
            _ => *place ^ 0x80,
        };
    }
    Ok(Input {
        form: input.form,
        bytes,
    })
}

/// A message cut at every length, and with each of its bytes set to 0, to 255, and to itself with its top bit turned.
pub fn cut_and_changed(alloc: Global, input: &Input) -> Result<Vec<Input>, AllocError>
    ensures count { IfOk result (λ inputs. vec_len inputs ≡ 4 * vec_len input.now.bytes) }
    ensures form { IfOk result
        (λ inputs. All (λ changed. changed.form ≡ input.now.form) inputs.items) }
{
    let mut inputs = Vec::new(alloc);
    for at in 0..input.bytes.len() {
        for change in 0..4 {
            inputs.push(changed(alloc, input, at, change)?)?;
        }
    }
    Ok(inputs)
}
