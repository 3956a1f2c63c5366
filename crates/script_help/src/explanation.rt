//! The text for each reason.
use crate::form::{FORMS, Field, Form, form_of};
use crate::shown::Shown;
use script_grammar::{
    BadScript, BadWhy, FEWEST_NODES, MOST_ASK_BYTES, MOST_BYTES, MOST_LINES, MOST_NODES, number,
};
use std::fmt;

/// The first line of a script.
const HEAD: &str = "erpc-sim 1";

/// A bad line with what was expected in its place, as `line 3: Number: ring=31 is not from 32 to
/// 4096`.
#[derive(Clone, Copy)]
pub struct Explanation<'a> {
    bad: BadScript,
    /// Nothing where the script ends before that line.
    line: Option<&'a [u8]>,
    /// How many nodes were declared before that line.
    nodes: u32,
}

// Without the line feed at its end, which opens no line.
fn without_last_feed(script: &[u8]) -> &[u8] {
    match script {
        [front @ .., b'\n'] => front,
        _ => script,
    }
}

fn line_of(script: &[u8], number: u32) -> Option<&[u8]> {
    if script.is_empty() || number == 0 {
        return None;
    }
    let before = number.saturating_sub(1) as usize;
    without_last_feed(script)
        .split(|byte| *byte == b'\n')
        .nth(before)
}

fn is_node_line(line: &[u8]) -> bool {
    line.starts_with(b"node ")
}

fn nodes_before(script: &[u8], number: u32) -> u32 {
    let before = number.saturating_sub(1) as usize;
    let lines = script.split(|byte| *byte == b'\n').take(before);
    lines.filter(|line| is_node_line(line)).count() as u32
}

// Word `i` of a line, from 0 on.
fn word(line: &[u8], i: usize) -> &[u8] {
    line.split(|byte| *byte == b' ').nth(i).unwrap_or(&[])
}

impl<'a> Explanation<'a> {
    /// Looks up the bad line in its script. Where the script doesn't have that line, the text goes
    /// by the reason alone.
    pub fn of(script: &'a [u8], bad: BadScript) -> Explanation<'a> {
        Explanation {
            bad,
            line: line_of(script, bad.line),
            nodes: nodes_before(script, bad.line),
        }
    }

    // The line, or no bytes where there is none.
    fn text(&self) -> &'a [u8] {
        self.line.unwrap_or(&[])
    }

    fn form(&self) -> Option<Form> {
        form_of(word(self.text(), 0))
    }

    // Whether two blanks stand side by side, or one at the end.
    fn has_empty_word(&self) -> bool {
        self.text()
            .split(|byte| *byte == b' ')
            .any(|word| word.is_empty())
    }

    // The head that isn't there.
    fn fmt_first<W: fmt::Write>(&self, f: &mut fmt::Formatter<W>) -> fmt::Result {
        match self.line {
            None => write!(f, "the script is empty; it begins with {HEAD}"),
            Some([]) => write!(f, "the first line is empty, not {HEAD}"),
            Some([.., b' ']) => write!(f, "the first line ends with a blank, and is not {HEAD}"),
            Some(line) => write!(f, "the first line is {}, not {HEAD}", Shown(line)),
        }
    }

    // A word that is no command, and those that are.
    fn fmt_word<W: fmt::Write>(&self, f: &mut fmt::Formatter<W>) -> fmt::Result {
        let word = word(self.text(), 0);
        if word.is_empty() {
            return f.write_str("the line begins with a blank");
        }
        write!(f, "{} is not a command; these are:", Shown(word))?;
        for form in FORMS.iter() {
            write!(f, " {}", form.name)?;
        }
        Ok(())
    }

    // A line with another count of words than its form, or without a key.
    fn fmt_shape<W: fmt::Write>(&self, f: &mut fmt::Formatter<W>) -> fmt::Result {
        match self.form() {
            Some(form) => write!(f, "the line is not of the form {}", form.usage)?,
            None => f.write_str("the line has not the form of its command")?,
        }
        if self.has_empty_word() {
            f.write_str("; words are parted by one blank")?;
        }
        Ok(())
    }

    // Node lines that are too few, too many or too late.
    fn fmt_nodes<W: fmt::Write>(&self, f: &mut fmt::Formatter<W>) -> fmt::Result {
        if self.line.is_none() {
            return write!(
                f,
                "the script ends with {} node lines; {FEWEST_NODES} to {MOST_NODES} come first",
                self.nodes
            );
        }
        write!(
            f,
            "{FEWEST_NODES} to {MOST_NODES} node lines come before all other commands"
        )
    }

    // The first word that is not the number that its form has there.
    fn fmt_number<W: fmt::Write>(&self, f: &mut fmt::Formatter<W>) -> fmt::Result {
        let Some(form) = self.form() else {
            return f.write_str("a number is out of its range");
        };
        for (i, field) in form.fields.iter().enumerate() {
            let word = word(self.text(), i + 1);
            match field {
                Field::Node if number(word, 0, u32::MAX).is_err() => {
                    return write!(f, "{} is not the number of a node", Shown(word));
                }
                Field::Number { key, low, high } => {
                    let digits = word.strip_prefix(key.as_bytes()).unwrap_or(&[]);
                    if number(digits, *low, *high).is_err() {
                        return write!(f, "{} is not from {low} to {high}", Shown(word));
                    }
                }
                _ => {}
            }
        }
        f.write_str("a number is out of its range")
    }

    // The first node that is not declared.
    fn fmt_node<W: fmt::Write>(&self, f: &mut fmt::Formatter<W>) -> fmt::Result {
        for word in self.text().split(|byte| *byte == b' ').skip(1).take(2) {
            if number(word, 0, self.nodes.saturating_sub(1)).is_err() {
                return write!(
                    f,
                    "node {} is not declared; there are {}",
                    Shown(word),
                    self.nodes
                );
            }
        }
        f.write_str("a node is not declared")
    }
}

impl<'a> fmt::Display for Explanation<'a> {
    fn fmt<W: fmt::Write>(&self, f: &mut fmt::Formatter<W>) -> fmt::Result {
        write!(f, "{}: ", self.bad)?;
        match self.bad.why {
            BadWhy::TooLong => write!(f, "a script has at most {MOST_BYTES} bytes"),
            BadWhy::Lines => write!(f, "a script has at most {MOST_LINES} lines"),
            BadWhy::First => self.fmt_first(f),
            BadWhy::Word => self.fmt_word(f),
            BadWhy::Shape => self.fmt_shape(f),
            BadWhy::Number => self.fmt_number(f),
            BadWhy::Hex => write!(
                f,
                "{} is not -, an even count of lower-case hexadecimal digits, or *N with N from 0 \
                 to {MOST_ASK_BYTES}",
                Shown(word(self.text(), 4))
            ),
            BadWhy::Nodes => self.fmt_nodes(f),
            BadWhy::Node => self.fmt_node(f),
            BadWhy::Same => write!(f, "both nodes are {}", Shown(word(self.text(), 1))),
        }
    }
}
