//! Messages in hand as JSON, and canonical messages made of JSON.

mod made;
mod shown;
