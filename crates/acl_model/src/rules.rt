//! The rules of a file, line by line.

ghost use Rattle.std.specs.Prelude.{◌≡◌, OnErr};
ghost use Rattle.acl_rules.specs.Covers.{IsRule};
ghost use Rattle.table_lines.specs.Reading.{Leaves};
ghost use Rattle.acl_model.specs.Rules.{added, step};

use crate::content::{Content, content_of};
use acl_rules::Rule;
use std::marker::Model;
use table_lines::{LineReader, TableFault};

/// The most rules of a list.
const MOST_RULES: usize = 1024;

/// The rules that were read so far.
#[derive(Drop)]
pub(crate) struct Rules {
    pub rules: Vec<Rule>,
}

impl Model for Rules {
    ghost use Rattle.std.specs.Prelude.{List};
    ghost use Rattle.acl_rules.specs.declared.rule.Rule.{Rule};
    ghost use Rattle.acl_model.specs.Rules.{AreRules};

    ghost Value = { List Rule };

    ghost view = { λ r. r.rules.items };

    ghost invariant = { λ r. AreRules r.rules.items };
}

impl Rules {
    /// One rule more, of this line.
    fn add(&mut self, line: u64, rule: Rule) -> Result<(), TableFault>
        requires { IsRule rule }
        ensures leaves { Leaves (added self.old line rule) result self.new }
        ensures kept { OnErr result (self.new ≡ self.old) }
    {
        if self.rules.len() >= MOST_RULES {
            return Err(TableFault::Limit { line });
        }
        let Ok(()) = self.rules.push(rule) else {
            return Err(TableFault::NoMemory);
        };
        Ok(())
    }
}

impl LineReader for Rules {
    ghost step = { step };

    fn take(&mut self, line: u64, text: &[u8]) -> Result<(), TableFault> {
        match content_of(text) {
            Content::Skipped => Ok(()),
            Content::Bad => Err(TableFault::BadLine { line }),
            Content::Rule(rule) => self.add(line, rule),
        }
    }
}
