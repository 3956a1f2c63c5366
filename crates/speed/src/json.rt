//! A report as one line of JSON.
use crate::report::{Form, Report};
use std::fmt;

/// The members of an object.
const MEMBERS: Form = Form {
    first: "{\"",
    before: ",\"",
    between: "\":",
    close: "}",
};

/// A report as one line of JSON, an object of numbers.
#[derive(Clone, Copy)]
pub struct Json(pub Report);

impl fmt::Display for Json {
    fn fmt<W: fmt::Write>(&self, f: &mut fmt::Formatter<W>) -> fmt::Result {
        self.0.put(&MEMBERS, f)
    }
}
