//! Reads examples, line by line.
ghost use Rattle.std.specs.Prelude.{◌≡◌, ◌∷◌, ◌++◌, ◌<◌, ◌≤◌, length, IfOk, MatchOption, OnSome};

use crate::example::{Call, Example};
use anyhow::{Context, anyhow};
use std::alloc::{AllocError, Global};
use terms::Quote;

/// What is left of the file, and the number of its next line. Each line ends with a line feed.
#[derive(Clone, Copy, Drop)]
pub struct Reader<'a> {
    rest: &'a str,
    line: u64,
}

// A bid and an offer in cents, where they are lawful.
fn quote(words: &str) -> Option<Quote> {
    let (bid, offer) = words.split_once(' ')?;
    Quote::new(bid.parse::<u32>().ok()?, offer.parse::<u32>().ok()?).ok()
}

impl<'a> Reader<'a> {
    pub fn new(text: &'a str) -> Reader<'a>
        ensures { result.rest.now ≡ text.now }
    {
        Reader {
            rest: text,
            line: 1,
        }
    }

    fn expected(&self, form: &str) -> anyhow::Error {
        let line = self.line;
        anyhow!("line {line}: expected {form}")
    }

    // What follows the mark on the next line. Where the line has another mark it is left.
    fn after(&mut self, mark: &str) -> Option<&'a str>
        ensures taken { MatchOption result
            (self.new.rest.now ≡ self.old.rest.now)
            (λ words. self.old.rest.now ≡ mark.now ++ words.now ++ (10 ∷ self.new.rest.now)) }
        ensures shorter { OnSome result (length self.new.rest.now < length self.old.rest.now) }
    {
        let text = self.rest;
        let (line, rest) = text.split_once('\n')?;
        let words = line.strip_prefix(mark)?;
        self.rest = rest;
        self.line = self.line.saturating_add(1);
        Some(words)
    }

    // The next lines that have the mark.
    fn all_after(&mut self, heap: Global, mark: &str) -> Result<Vec<&'a str>, AllocError>
        ensures { length self.new.rest.now ≤ length self.old.rest.now }
    {
        let mut found = Vec::new(heap);
        while let Some(words) = self.after(mark) {
            found.push(words)?;
        }
        Ok(found)
    }

    fn quote(&mut self) -> anyhow::Result<Quote>
        ensures { length self.new.rest.now ≤ length self.old.rest.now }
    {
        let line = self.line;
        self.after("book ").and_then(quote).context(format_args!(
            "line {line}: expected book BID OFFER, a lawful quote"
        ))
    }

    fn call(&mut self, heap: Global) -> Result<Option<Call<'a>>, AllocError>
        ensures left { length self.new.rest.now ≤ length self.old.rest.now }
        ensures shorter { IfOk result (λ o. OnSome o (length self.new.rest.now < length self.old.rest.now)) }
    {
        let line = self.line;
        let Some(asked) = self.after("> ") else {
            return Ok(None);
        };
        let mut expected = String::new(heap);
        while let Some(answer) = self.after("< ") {
            expected.push_str(answer)?;
            expected.push('\n')?;
        }
        Ok(Some(Call {
            line,
            asked,
            expected,
        }))
    }

    fn calls(&mut self, heap: Global) -> Result<Vec<Call<'a>>, AllocError>
        ensures { length self.new.rest.now ≤ length self.old.rest.now }
    {
        let mut calls = Vec::new(heap);
        while let Some(call) = self.call(heap)? {
            calls.push(call)?;
        }
        Ok(calls)
    }

    // Passes over comments and empty lines.
    fn skip(&mut self)
        ensures { length self.new.rest.now ≤ length self.old.rest.now }
    {
        while let Some((line, rest)) = self.rest.split_once('\n') {
            if !line.is_empty() && !line.starts_with('#') {
                break;
            }
            self.rest = rest;
            self.line = self.line.saturating_add(1);
        }
    }

    /// None at the end of the file.
    pub fn example(&mut self, heap: Global) -> anyhow::Result<Option<Example<'a>>>
        ensures { IfOk result (λ o. OnSome o (length self.new.rest.now < length self.old.rest.now)) }
    {
        self.skip();
        if self.rest.is_empty() {
            return Ok(None);
        }
        let Some(name) = self.after("example ") else {
            return Err(self.expected("example NAME"));
        };
        let says = self.all_after(heap, "says ")?;
        if says.is_empty() {
            return Err(self.expected("says and what is published"));
        }
        let differs = self.all_after(heap, "differs ")?;
        let quote = self.quote()?;
        let calls = self.calls(heap)?;
        Ok(Some(Example {
            name,
            says,
            differs,
            quote,
            calls,
        }))
    }
}
