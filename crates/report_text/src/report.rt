//! The report of a history.
ghost use Rattle.std.specs.Prelude.{◌++◌, codes, decimal, flat_map};
ghost use Rattle.rpc_outside.specs.Writing.{Prints};
ghost use Rattle.report_text.specs.Page.{Fills};
ghost use Rattle.report_text.specs.Text.{event_text, line_text, text, who_text};

use crate::line::{put_fact, put_line};
use crate::page::{Page, flush};
use crate::pieces::{put_last, put_pair};
use rpc_base::Fact;
use rpc_outside::{Failed, Sink};

/// Puts a line for each fact.
fn put_lines<K: Sink>(sink: &mut K, page: &mut Page, facts: &[Fact]) -> Result<(), Failed>
    ensures { Fills K.page sink.old sink.new page.old page.new result
        (flat_map line_text facts.now) }
{
    for fact in facts {
        put_line(sink, page, fact)?;
    }
    Ok(())
}

/// Puts the first line and a line for each fact.
fn put_facts<K: Sink>(sink: &mut K, page: &mut Page, facts: &[Fact]) -> Result<(), Failed>
    ensures { Fills K.page sink.old sink.new page.old page.new result
        (codes "erpc-report 1\n" ++ flat_map line_text facts.now) }
{
    put_last(sink, page, "erpc-report 1\n")?;
    put_lines(sink, page, facts)
}

/// Puts the last line.
fn put_end<K: Sink>(sink: &mut K, page: &mut Page, count: u64) -> Result<(), Failed>
    ensures { Fills K.page sink.old sink.new page.old page.new result
        (codes "end " ++ decimal count ++ codes "\n") }
{
    put_pair(sink, page, &("end ", count))?;
    put_last(sink, page, "\n")
}

/// Puts a report.
fn put_report<K: Sink>(sink: &mut K, page: &mut Page, facts: &[Fact]) -> Result<(), Failed>
    ensures { Fills K.page sink.old sink.new page.old page.new result (text facts.now) }
{
    put_facts(sink, page, facts)?;
    put_end(sink, page, facts.len() as u64)
}

/// Writes the report of these facts, a line at a time; one that is longer than a page goes out in
/// parts. It takes no memory. `Failed` comes only where the sink counts one more fault; a front of
/// the report was then written.
pub fn print_facts<K: Sink>(facts: &[Fact], sink: &mut K) -> Result<(), Failed>
    ensures { Prints (K.page sink.old) (K.page sink.new) result (text facts.now) }
{
    let mut page = Page::new();
    put_report(sink, &mut page, facts)?;
    flush(sink, &mut page)
}

/// Writes the line of one fact, without its line feed, by way of a page: one page serves for many
/// lines, one after another, and what it held is gone. It takes no memory. `Failed` comes only
/// where the sink counts one more fault; a front of the line was then written.
pub fn print_fact<K: Sink>(fact: &Fact, page: &mut Page, sink: &mut K) -> Result<(), Failed>
    ensures { Prints (K.page sink.old) (K.page sink.new) result
        (who_text fact.now.who ++ codes " "
        ++ event_text fact.now.event fact.now.first fact.now.second) }
{
    page.clear();
    put_fact(sink, page, fact)?;
    flush(sink, page)
}
