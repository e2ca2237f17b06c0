//! A buffer for the bytes made from JSON, and the place of a mistake in the JSON.

ghost use Rattle.std.specs.Prelude.{◌≡◌, ◌∷◌, [], Some, replicate};
ghost use Rattle.nla_frames.specs.Value.{le_bytes, be_bytes};
ghost use Rattle.forms_values.specs.Appended.{Appended};
ghost use Rattle.forms_values.specs.declared.error.MakeError.TheVariants.{OutOfMemory};

use crate::error::{MakeError, Wanted};
use crate::pointer::{Step, brief, push_step};
use serde_json::Value;
use std::alloc::{AllocError, Global};

/// Why making bytes stopped. The [`Maker`] has the details.
#[derive(Clone, Copy)]
pub enum Stop {
    /// Memory ran out.
    OutOfMemory,
    /// The JSON is wrong.
    Wrong,
}

/// The bytes so far, and the mistake in the JSON, if one was found.
#[derive(Drop)]
pub struct Maker<'v> {
    /// The allocator.
    pub alloc: Global,
    /// The bytes so far.
    pub bytes: Vec<u8>,
    // The JSON that was found; None if there was no memory for its text.
    found: Option<String>,
    wanted: Wanted,
    // The steps to its place, from the last to the first.
    steps: Vec<Step<'v>>,
    // True if there was no memory for a step.
    is_lost: bool,
}

impl<'v> Maker<'v> {
    pub fn new(alloc: Global) -> Maker<'v>
        ensures { result.bytes.items ≡ [] }
    {
        Maker {
            alloc,
            bytes: Vec::new(alloc),
            found: None,
            wanted: Wanted::Member,
            steps: Vec::new(alloc),
            is_lost: false,
        }
    }

    /// Appends bytes.
    pub fn put(&mut self, bytes: &[u8]) -> Result<(), Stop>
        ensures { Appended (Some bytes.now) self.old.bytes.items self.new.bytes.items result }
    {
        match self.bytes.extend_from_slice(bytes) {
            Ok(()) => Ok(()),
            Err(_) => Err(Stop::OutOfMemory),
        }
    }

    /// Appends one byte.
    pub fn put_byte(&mut self, byte: u8) -> Result<(), Stop>
        ensures { Appended (Some (byte ∷ [])) self.old.bytes.items self.new.bytes.items result }
    {
        match self.bytes.push(byte) {
            Ok(()) => Ok(()),
            Err(_) => Err(Stop::OutOfMemory),
        }
    }

    /// Appends zeros.
    pub fn put_zeros(&mut self, count: usize) -> Result<(), Stop>
        ensures { Appended (Some (replicate count 0)) self.old.bytes.items self.new.bytes.items result }
    {
        if count == 0 {
            return Ok(());
        }
        match self.put_byte(0) {
            Ok(()) => self.put_zeros(count - 1),
            Err(e) => Err(e),
        }
    }

    /// Appends the lowest bytes of a number, least significant first.
    #[tactic(auto, using(crate::proofs::Appending::put_taken))]
    pub fn put_little(&mut self, number: u64, width: usize) -> Result<(), Stop>
        ensures { Appended (Some (le_bytes width number)) self.old.bytes.items self.new.bytes.items result }
    {
        if width > 8 {
            return self.put_little_by_one(number, width);
        }
        self.put(&number.to_le_bytes()[..width])
    }

    // Byte by byte.
    fn put_little_by_one(&mut self, number: u64, width: usize) -> Result<(), Stop>
        ensures { Appended (Some (le_bytes width number)) self.old.bytes.items self.new.bytes.items result }
    {
        if width == 0 {
            return Ok(());
        }
        match self.put_byte((number % 256) as u8) {
            Ok(()) => self.put_little_by_one(number / 256, width - 1),
            Err(e) => Err(e),
        }
    }

    /// Appends the lowest bytes of a number, most significant first.
    pub fn put_big(&mut self, number: u64, width: usize) -> Result<(), Stop>
        ensures { Appended (Some (be_bytes width number)) self.old.bytes.items self.new.bytes.items result }
    {
        if width == 0 {
            return Ok(());
        }
        match self.put_big(number / 256, width - 1) {
            Ok(()) => self.put_byte((number % 256) as u8),
            Err(e) => Err(e),
        }
    }

    /// Adds a step at the front of the path to the mistake.
    pub fn at(&mut self, step: Step<'v>) {
        if self.steps.push(step).is_err() {
            self.is_lost = true;
        }
    }

    /// Notes that a value is wrong.
    pub fn wrong(&mut self, found: &Value, wanted: Wanted) -> Stop {
        self.found = brief(self.alloc, found).ok();
        self.wanted = wanted;
        Stop::Wrong
    }

    /// Notes that a value doesn't have its form. If it has a member "raw", that member isn't hex.
    pub fn unfit(&mut self, found: &Value, wanted: Wanted) -> Stop {
        match found.get("raw") {
            Some(raw) => self.wrong_member("raw", raw, Wanted::Hex),
            None => self.wrong(found, wanted),
        }
    }

    /// Notes that a member is wrong.
    pub fn wrong_member(&mut self, name: &'static str, found: &Value, wanted: Wanted) -> Stop {
        let stop = self.wrong(found, wanted);
        self.at(Step::Member(name));
        stop
    }

    /// Notes that a member is wrong or missing.
    pub fn wrong_or_missing(&mut self, value: &Value, name: &'static str, wanted: Wanted) -> Stop {
        match value.get(name) {
            Some(found) => self.wrong_member(name, found, wanted),
            None => self.missing(value, name),
        }
    }

    /// Notes that a member is missing.
    pub fn missing(&mut self, value: &Value, name: &'static str) -> Stop {
        if !value.is_object() {
            return self.unfit(value, Wanted::Object);
        }
        if value.get("raw").is_some() {
            return self.unfit(value, Wanted::Member);
        }
        self.found = String::from_str(self.alloc, "nothing").ok();
        self.wanted = Wanted::Member;
        self.at(Step::Member(name));
        Stop::Wrong
    }

    /// Notes that no member has one of the names that are wanted.
    pub fn unknown(&mut self, value: &'v Value, wanted: Wanted) -> Stop {
        let members = match value.as_object() {
            Some(members) if value.get("raw").is_none() => members,
            _ => return self.unfit(value, wanted),
        };
        match members.first_key_value() {
            Some((name, _)) => self.wrong_name(name.as_str(), wanted),
            None => self.wrong(value, wanted),
        }
    }

    // Notes that a member has an unknown name.
    fn wrong_name(&mut self, name: &'v str, wanted: Wanted) -> Stop {
        self.found = match Value::try_from_str(self.alloc, name) {
            Ok(name) => brief(self.alloc, &name).ok(),
            Err(_) => None,
        };
        self.wanted = wanted;
        self.at(Step::Member(name));
        Stop::Wrong
    }

    /// The error for the mistake that was noted.
    pub fn into_error(self) -> MakeError {
        if self.is_lost {
            return MakeError::OutOfMemory;
        }
        let path = match self.path() {
            Ok(path) => path,
            Err(_) => return MakeError::OutOfMemory,
        };
        let Maker { found, wanted, .. } = self;
        match found {
            Some(found) => MakeError::Wrong {
                path,
                found,
                wanted,
            },
            None => MakeError::OutOfMemory,
        }
    }

    // The place of the mistake, as a JSON pointer.
    fn path(&self) -> Result<String, AllocError> {
        let mut path = String::new(self.alloc);
        for step in self.steps.iter().rev() {
            push_step(self.alloc, &mut path, *step)?;
        }
        Ok(path)
    }
}
