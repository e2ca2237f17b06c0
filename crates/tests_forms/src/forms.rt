//! JSON that can't be turned into bytes.

mod wrong;
