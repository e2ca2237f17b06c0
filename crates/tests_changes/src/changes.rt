//! Plans of small states.

ghost use Rattle.std.specs.Prelude.{true, false, not, nat_eq, slice_index};
ghost use Rattle.tc_changes.specs.Objects.{same_key};

use std::alloc::{AllocError, Global};
use tc_changes::{Key, Object, Plan, PlanError, Rules, Step, is_ready, plan};

struct Anything;

impl Rules<Global> for Anything {
    ghost takes = { λ self old new. true };

    ghost can_make = { λ self object. true };

    ghost weak = { λ self key. false };

    fn takes(&self, _old: &Object<Global>, _new: &Object<Global>) -> bool {
        true
    }

    fn can_make(&self, _object: &Object<Global>) -> bool {
        true
    }

    fn is_weak(&self, _key: &Key) -> bool {
        false
    }
}

struct Nothing;

impl Rules<Global> for Nothing {
    ghost takes = { λ self old new. false };

    ghost can_make = { λ self object. not (nat_eq (slice_index object.config 0) 9) };

    ghost weak = { λ self key. false };

    fn takes(&self, _old: &Object<Global>, _new: &Object<Global>) -> bool {
        false
    }

    fn can_make(&self, object: &Object<Global>) -> bool {
        object.config.first().copied().unwrap_or(0) != 9
    }

    fn is_weak(&self, _key: &Key) -> bool {
        false
    }
}

// An object that only others hold.
#[derive(Drop)]
struct OnlyHeld {
    key: Key,
}

impl Rules<Global> for OnlyHeld {
    ghost takes = { λ self old new. false };

    ghost can_make = { λ self object. true };

    ghost weak = { λ self key. same_key self.key key };

    fn takes(&self, _old: &Object<Global>, _new: &Object<Global>) -> bool {
        false
    }

    fn can_make(&self, _object: &Object<Global>) -> bool {
        true
    }

    fn is_weak(&self, key: &Key) -> bool {
        self.key == *key
    }
}

// A qdisc 1 of interface 2, its classes 2 and 3, an action 4, and filters 5 and 6.
fn key_at(number: u32) -> Key {
    match number {
        1 => Key::Place {
            index: 2,
            parent: 0xffff_ffff,
        },
        2 | 3 => Key::Class {
            index: 2,
            handle: 0x1_0000 + number,
        },
        4 => Key::Action {
            kind: *b"gact\0\0\0\0\0\0\0\0\0\0\0\0",
            index: 1,
        },
        _ => Key::Filter {
            index: 2,
            parent: 0x1_0000,
            number: 0,
            priority: number,
            handle: 1,
        },
    }
}

fn number_of(key: &Key) -> u32 {
    (1..7).find(|number| key_at(*number) == *key).unwrap_or(0)
}

fn keys(alloc: Global, numbers: &[u32]) -> Result<Vec<Key>, AllocError> {
    let mut made = Vec::new(alloc);
    for number in numbers {
        made.push(key_at(*number))?;
    }
    Ok(made)
}

fn object(
    alloc: Global,
    number: u32,
    under: &[u32],
    refers: &[u32],
    config: u8,
) -> Result<Object<Global>, AllocError> {
    Ok(Object {
        key: key_at(number),
        under: keys(alloc, under)?,
        refers: keys(alloc, refers)?,
        config: vec![in alloc; config]?,
    })
}

// These objects, with these configurations: class 3 is a child of 2, and filter 5 refers to 3 and 4.
fn state(alloc: Global, configs: &[u8; 6]) -> Result<Vec<Object<Global>>, AllocError> {
    let mut made = Vec::new(alloc);
    made.push(object(alloc, 1, &[], &[], configs[0])?)?;
    made.push(object(alloc, 2, &[1], &[], configs[1])?)?;
    made.push(object(alloc, 3, &[1], &[2], configs[2])?)?;
    made.push(object(alloc, 4, &[], &[], configs[3])?)?;
    made.push(object(alloc, 5, &[1], &[3, 4], configs[4])?)?;
    made.push(object(alloc, 6, &[1], &[], configs[5])?)?;
    Ok(made)
}

// Why there is no plan: the state of now (`now`) or the wanted one (`want`) isn't in order, and the number of the object because of which.
fn unready(alloc: Global, error: &PlanError) -> Result<String, AllocError> {
    match error {
        PlanError::State(key) => format!(in alloc; "now {}", number_of(key)),
        PlanError::Wanted(key) => format!(in alloc; "want {}", number_of(key)),
        PlanError::Weak(key) => format!(in alloc; "weak {}", number_of(key)),
        PlanError::Elsewhere(key) => format!(in alloc; "elsewhere {}", number_of(key)),
        PlanError::OutOfMemory => Err(AllocError),
    }
}

fn shown<R: Rules<Global>>(
    alloc: Global,
    rules: &R,
    state: &[Object<Global>],
    want: Vec<Object<Global>>,
) -> Result<String, AllocError> {
    let planned = match plan(alloc, rules, state, want) {
        Ok(planned) => planned,
        Err(error) => return unready(alloc, &error),
    };
    let mut made = String::new(alloc);
    match planned {
        Plan::Steps(steps) => {
            for step in &steps {
                let text = match step {
                    Step::Delete(key) => format!(in alloc; "-{}", number_of(key))?,
                    Step::Change(object) => format!(in alloc; "~{}", number_of(&object.key))?,
                    Step::Make(object) => format!(in alloc; "+{}", number_of(&object.key))?,
                };
                made.push_str(&text)?;
            }
        }
        Plan::Refused(keys) => {
            for key in &keys {
                let text = format!(in alloc; "!{}", number_of(key))?;
                made.push_str(&text)?;
            }
        }
    }
    Ok(made)
}

#[test]
fn plans(rt: HostRuntime) -> Result<(), AllocError> {
    let alloc = rt.alloc();
    let now = state(alloc, &[0, 0, 0, 0, 0, 0])?;
    let text = shown(alloc, &Nothing, &now, state(alloc, &[0, 0, 0, 0, 0, 0])?)?;
    assert_eq!(rt; text.as_str(), "");
    // a class that can be changed; one that can't, with its child and the filter that refers to the child
    let text = shown(alloc, &Anything, &now, state(alloc, &[0, 1, 0, 0, 0, 0])?)?;
    assert_eq!(rt; text.as_str(), "~2");
    let text = shown(alloc, &Nothing, &now, state(alloc, &[0, 1, 0, 0, 0, 0])?)?;
    assert_eq!(rt; text.as_str(), "-5-3-2+2+3+5");
    // a qdisc takes along all but the action; an action that goes too waits for its filter
    let text = shown(alloc, &Nothing, &now, state(alloc, &[1, 0, 0, 0, 0, 0])?)?;
    assert_eq!(rt; text.as_str(), "-1+1+2+3+5+6");
    let text = shown(alloc, &Nothing, &now, Vec::new(alloc))?;
    assert_eq!(rt; text.as_str(), "-5-4-1");
    // an action that only a filter holds goes with it, and comes back if it is wanted
    let held = OnlyHeld { key: key_at(4) };
    let text = shown(alloc, &held, &now, state(alloc, &[0, 0, 0, 0, 0, 0])?)?;
    assert_eq!(rt; text.as_str(), "");
    let text = shown(alloc, &held, &now, state(alloc, &[0, 0, 0, 0, 1, 0])?)?;
    assert_eq!(rt; text.as_str(), "-5+4+5");
    let text = shown(alloc, &held, &now, Vec::new(alloc))?;
    assert_eq!(rt; text.as_str(), "-1");
    let mut unheld = Vec::new(alloc);
    unheld.push(object(alloc, 4, &[], &[], 0)?)?;
    let text = shown(alloc, &held, &unheld, Vec::new(alloc))?;
    assert_eq!(rt; text.as_str(), "weak 4");
    // what can't be made: 9
    let text = shown(alloc, &Nothing, &now, state(alloc, &[0, 9, 0, 9, 0, 0])?)?;
    assert_eq!(rt; text.as_str(), "!2!4");
    let text = shown(alloc, &Nothing, &[], state(alloc, &[0, 0, 0, 0, 0, 0])?)?;
    assert_eq!(rt; text.as_str(), "+1+2+3+4+5+6");
    // twice the same object, and one without its qdisc
    let mut twice = state(alloc, &[0, 0, 0, 0, 0, 0])?;
    twice.push(object(alloc, 6, &[1], &[], 0)?)?;
    assert!(rt; !is_ready(alloc, &twice)?);
    let text = shown(alloc, &Nothing, &twice, Vec::new(alloc))?;
    assert_eq!(rt; text.as_str(), "now 6");
    let text = shown(alloc, &Nothing, &now, twice)?;
    assert_eq!(rt; text.as_str(), "want 6");
    let mut alone = Vec::new(alloc);
    alone.push(object(alloc, 6, &[1], &[], 0)?)?;
    assert!(rt; !is_ready(alloc, &alone)?);
    let text = shown(alloc, &Nothing, &now, alone)?;
    assert_eq!(rt; text.as_str(), "want 6");
    Ok(())
}
