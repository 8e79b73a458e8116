//! Reads a whole strategy, line by line.

ghost use Rattle.std.specs.Prelude.{◌≡◌, ◌≤◌, length};
ghost use Rattle.spec_text.specs.Lines.{lines_of};
ghost use Rattle.spec_tool.specs.Sizes.{most_strategy_bytes, most_rules};
ghost use Rattle.spec_tool.specs.Strategy as spec;
ghost use Rattle.bm_auto.specs.Gives.{at_line, Gives, Takes};

use crate::error::{LineError, StrategyError};
use crate::rules::{MOST_RULES, said_line};
use bm_runfile::first_line;
use spec_run::Header;
use spec_tool::Rule;
use std::alloc::Global;

/// The bytes that a strategy file may have.
pub const MOST_STRATEGY_BYTES: usize = 1_048_576;

/// The numbers are those of the definitions.
pub fn strategy_limits_are_defined()
    ensures bytes { MOST_STRATEGY_BYTES ≡ most_strategy_bytes }
    ensures rules { MOST_RULES ≡ most_rules }
{}

fn at_line(error: LineError, line: u32) -> StrategyError
    ensures { result ≡ at_line error line }
{
    match error {
        LineError::Bad => StrategyError::BadLine(line),
        LineError::Over => StrategyError::Limit(line),
        LineError::Memory => StrategyError::Memory,
    }
}

/// Takes one line.
fn take_rule(
    alloc: Global,
    header: &Header,
    rules: &mut Vec<Rule>,
    line: &[u8],
) -> Result<(), LineError>
    ensures { Takes rules.old.items rules.new.items result (spec.said_line header.now (length rules.old.items) line.now) }
{
    if let Some(rule) = said_line(alloc, header, rules.len(), line)? {
        rules.push(rule)?;
    }
    Ok(())
}

/// The rules that a text of at most 1,048,576 bytes spells for the honest parties of a header, or why it spells none.
/// The first line that is bad or one rule too many is named; lines without words don't count.
pub fn read_strategy(
    alloc: Global,
    text: &[u8],
    header: &Header,
) -> Result<Vec<Rule>, StrategyError>
    requires { length text.now ≤ most_strategy_bytes }
    ensures { Gives (λ v. v.items) result (spec.read_strategy header.now text.now) }
{
    let mut rules = Vec::new(alloc);
    let mut rest = text;
    let mut line = 1u32;
    while !rest.is_empty() {
        let (prefix, more) = first_line(rest);
        if let Err(error) = take_rule(alloc, header, &mut rules, prefix) {
            return Err(at_line(error, line));
        }
        rest = more;
        line += 1;
    }
    Ok(rules)
}
