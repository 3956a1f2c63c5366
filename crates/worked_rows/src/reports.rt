//! A report, compared with what is wanted of it.

/// What a report is compared with.
#[derive(Clone, Copy)]
pub enum Wants {
    /// A whole report.
    Whole,
    /// Lines that come in this order, each as often as it stands among them.
    Lines,
    /// Counts of lines: a number, how the lines begin, and what each has in it.
    Counts,
}

impl Wants {
    // What the file is, whose name ends so.
    fn of(ending: &str) -> Wants {
        match ending {
            "counts" => Wants::Counts,
            "lines" => Wants::Lines,
            _ => Wants::Whole,
        }
    }

    /// How the name of the file ends in which it stands.
    pub fn ending(self) -> &'static str {
        match self {
            Wants::Whole => "report",
            Wants::Lines => "lines",
            Wants::Counts => "counts",
        }
    }

    /// Whether a report is as wanted.
    pub fn are_in(self, report: &str, wanted: &str) -> bool {
        match self {
            Wants::Whole => report == wanted,
            Wants::Lines => has_lines(report, wanted),
            Wants::Counts => wanted.lines().all(|line| has_count(report, line)),
        }
    }
}

/// The name of a case, and what its report is compared with, of the name of the file in which that
/// stands.
pub fn case_of(file: &str) -> (&str, Wants) {
    match file.split_once(".") {
        Some((name, ending)) => (name, Wants::of(ending)),
        None => (file, Wants::Whole),
    }
}

/// Whether a text is the first lines of a report, so many of them.
pub fn is_front(report: &str, text: &str, lines: u64) -> bool {
    let is_whole = text.is_empty() || text.ends_with('\n');
    report.starts_with(text) && is_whole && text.lines().count() as u64 == lines
}

/// How many facts a report has: all of its lines but the first and the last.
pub fn facts_in(report: &str) -> usize {
    report.lines().count().saturating_sub(2)
}

fn count_of(text: &str, wanted: &str) -> usize {
    text.lines().filter(|line| *line == wanted).count()
}

// Whether the lines stand in the report in this order, each as often as among them.
fn has_lines(report: &str, wanted: &str) -> bool {
    let mut rest = report.lines();
    for line in wanted.lines() {
        if !rest.any(|told| told == line) {
            return false;
        }
        if count_of(report, line) != count_of(wanted, line) {
            return false;
        }
    }
    true
}

// How many lines of a report begin so and have this text in them.
fn count_of_parts(text: &str, front: &str, part: &str) -> usize {
    text.lines()
        .filter(|line| line.starts_with(front) && line.contains(part))
        .count()
}

// Whether as many lines of the report as a line of counts tells begin and go on as it says.
fn has_count(report: &str, wanted: &str) -> bool {
    let Some((number, shape)) = wanted.split_once(": ") else {
        return false;
    };
    let Some((front, part)) = shape.split_once(" .. ") else {
        return false;
    };
    match number.parse::<usize>() {
        Ok(count) => count_of_parts(report, front, part) == count,
        Err(_) => false,
    }
}
