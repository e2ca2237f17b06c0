//! The places where two JSON values differ.

use crate::same::is_same;
use forms_values::pointer::{Step, brief, pointer};
use serde_json::{Map, Value};
use std::alloc::{AllocError, Global};
use std::fmt;

/// A place where JSON differs from the JSON that is wanted.
#[derive(Drop)]
pub struct Difference {
    /// The place, as a JSON pointer (RFC 6901). Empty for the whole.
    pub path: String,
    /// The JSON at this place, or a few words for a list, an object or a long text. `None` if there is none.
    pub found: Option<String>,
    /// The JSON that is wanted there. `None` if there should be none.
    pub wanted: Option<String>,
}

impl fmt::Display for Difference {
    fn fmt<W: fmt::Write>(&self, f: &mut fmt::Formatter<W>) -> fmt::Result {
        if !self.path.is_empty() {
            write!(f, "{}: ", self.path)?;
        }
        write!(
            f,
            "found {}, wanted {}",
            text_or_nothing(&self.found),
            text_or_nothing(&self.wanted)
        )
    }
}

fn text_or_nothing(text: &Option<String>) -> &str {
    match text {
        Some(text) => text.as_str(),
        None => "nothing",
    }
}

/// The places where JSON differs from the JSON that is wanted: lists are compared item by item, objects member by member.
pub fn differences<'v>(
    alloc: Global,
    found: &'v Value,
    wanted: &'v Value,
) -> Result<Vec<Difference>, AllocError> {
    let mut search = Search::new(alloc, usize::MAX);
    search.compare(found, wanted)?;
    Ok(search.differences)
}

/// The first difference, or the whole if there is none.
pub(crate) fn first_difference<'v>(
    alloc: Global,
    found: &'v Value,
    wanted: &'v Value,
) -> Result<Difference, AllocError> {
    let mut search = Search::new(alloc, 1);
    search.compare(found, wanted)?;
    match search.differences.pop() {
        Some(difference) => Ok(difference),
        None => between(alloc, &[], Some(found), Some(wanted)),
    }
}

// The differences so far, and the place of the search.
#[derive(Drop)]
struct Search<'v> {
    alloc: Global,
    place: Vec<Step<'v>>,
    // The greatest number of differences to list.
    most: usize,
    differences: Vec<Difference>,
}

impl<'v> Search<'v> {
    fn new(alloc: Global, most: usize) -> Search<'v> {
        Search {
            alloc,
            place: Vec::new(alloc),
            most,
            differences: Vec::new(alloc),
        }
    }

    #[cycle(compare)]
    fn compare(&mut self, found: &'v Value, wanted: &'v Value) -> Result<(), AllocError> {
        match (found, wanted) {
            (Value::Array(found), Value::Array(wanted)) => self.compare_items(found, wanted),
            (Value::Object(found), Value::Object(wanted)) => self.compare_members(found, wanted),
            _ => {
                if is_same(found, wanted) {
                    return Ok(());
                }
                self.put(Some(found), Some(wanted))
            }
        }
    }

    #[cycle(compare)]
    fn compare_items(
        &mut self,
        found: &'v Vec<Value>,
        wanted: &'v Vec<Value>,
    ) -> Result<(), AllocError> {
        for (index, item) in found.iter().enumerate() {
            self.place.push(Step::Item(index))?;
            match wanted.get(index) {
                Some(other) => self.compare(item, other)?,
                None => self.put(Some(item), None)?,
            }
            self.place.pop();
        }
        for (index, item) in wanted.iter().enumerate().skip(found.len()) {
            self.place.push(Step::Item(index))?;
            self.put(None, Some(item))?;
            self.place.pop();
        }
        Ok(())
    }

    #[cycle(compare)]
    fn compare_members(
        &mut self,
        found: &'v Map<String, Value>,
        wanted: &'v Map<String, Value>,
    ) -> Result<(), AllocError> {
        for (name, member) in found {
            self.place.push(Step::Member(name.as_str()))?;
            match wanted.get(name.as_str()) {
                Some(other) => self.compare(member, other)?,
                None => self.put(Some(member), None)?,
            }
            self.place.pop();
        }
        for (name, member) in wanted {
            if found.get(name.as_str()).is_none() {
                self.place.push(Step::Member(name.as_str()))?;
                self.put(None, Some(member))?;
                self.place.pop();
            }
        }
        Ok(())
    }

    // Adds this place to the list.
    fn put(&mut self, found: Option<&Value>, wanted: Option<&Value>) -> Result<(), AllocError> {
        if self.differences.len() < self.most {
            let difference = between(self.alloc, &self.place, found, wanted)?;
            self.differences.push(difference)?;
        }
        Ok(())
    }
}

fn between(
    alloc: Global,
    place: &[Step<'_>],
    found: Option<&Value>,
    wanted: Option<&Value>,
) -> Result<Difference, AllocError> {
    Ok(Difference {
        path: pointer(alloc, place)?,
        found: brief_of(alloc, found)?,
        wanted: brief_of(alloc, wanted)?,
    })
}

fn brief_of(alloc: Global, value: Option<&Value>) -> Result<Option<String>, AllocError> {
    match value {
        None => Ok(None),
        Some(value) => Ok(Some(brief(alloc, value)?)),
    }
}
