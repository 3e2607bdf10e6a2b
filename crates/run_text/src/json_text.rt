//! A text of JSON that is being written.

ghost use Rattle.std.specs.Prelude.{◌≡◌, [], string_bytes, IfOk, OnOk, IsUtf8};
ghost use Rattle.json.specs.Token as json_token;
ghost use Rattle.json.specs.Print.{print};
ghost use Rattle.serde_json.specs.Data.{Data, null, number, unsigned, string};
ghost use Rattle.serde_json.specs.Find.{of_integer};
ghost use Rattle.serde_json.specs.Written.{compact_text};
ghost use Rattle.run_text.specs.Tokens.{tokens_of, Puts, Gains};

use json::Writer;
use sn_width::NoMemory;
use std::alloc::Global;
use std::marker::Model;

/// A text of compact JSON that is being written. Contracts see the list of its tokens. Commas and colons come by
/// themselves; the nesting is the caller's.
#[derive(Drop)]
pub struct JsonText {
    writer: Writer,
}

impl Model for JsonText {
    ghost use Rattle.std.specs.Prelude.{◌≡◌, List, []};
    ghost use Rattle.json.specs.Token.{Token, tokens_code};

    ghost Value = { List Token };

    ghost coded = { tokens_code };

    ghost view = { λ text. text.writer.tokens };

    ghost invariant = { λ text. text.writer.before ≡ [] };
}

impl JsonText {
    /// Nothing yet, with room for `room` bytes.
    pub fn with_capacity(alloc: Global, room: usize) -> Result<JsonText, NoMemory>
        ensures { IfOk result (λ text. text ≡ []) }
    {
        let writer = Writer::new(Vec::with_capacity(alloc, room)?);
        Ok(JsonText { writer })
    }

    pub fn begin_object(&mut self) -> Result<(), NoMemory>
        ensures { OnOk result (Puts json_token.begin_object self.old self.new) }
    {
        Ok(self.writer.begin_object()?)
    }

    pub fn end_object(&mut self) -> Result<(), NoMemory>
        ensures { OnOk result (Puts json_token.end_object self.old self.new) }
    {
        Ok(self.writer.end_object()?)
    }

    pub fn begin_list(&mut self) -> Result<(), NoMemory>
        ensures { OnOk result (Puts json_token.begin_array self.old self.new) }
    {
        Ok(self.writer.begin_array()?)
    }

    pub fn end_list(&mut self) -> Result<(), NoMemory>
        ensures { OnOk result (Puts json_token.end_array self.old self.new) }
    {
        Ok(self.writer.end_array()?)
    }

    pub fn key(&mut self, name: &str) -> Result<(), NoMemory>
        ensures { OnOk result (Puts (json_token.key name.now) self.old self.new) }
    {
        Ok(self.writer.key(name)?)
    }

    pub fn string(&mut self, text: &str) -> Result<(), NoMemory>
        ensures { Gains (string text.now) result self.old self.new }
    {
        Ok(self.writer.string(text)?)
    }

    /// A number from 0 on.
    pub fn count(&mut self, count: u64) -> Result<(), NoMemory>
        ensures { Gains (number (unsigned count)) result self.old self.new }
    {
        Ok(self.writer.u64(count)?)
    }

    /// A number of 32 bits from 0 on.
    pub fn id(&mut self, id: u32) -> Result<(), NoMemory>
        ensures { Gains (number (unsigned id)) result self.old self.new }
    {
        Ok(self.writer.u64(u64::from(id))?)
    }

    /// A whole number of 32 bits.
    pub fn integer(&mut self, integer: i32) -> Result<(), NoMemory>
        ensures { Gains (number (of_integer integer)) result self.old self.new }
    {
        Ok(self.writer.i64(i64::from(integer))?)
    }

    pub fn null(&mut self) -> Result<(), NoMemory>
        ensures { Gains null result self.old self.new }
    {
        Ok(self.writer.null()?)
    }

    /// The text, where its tokens are those of a value.
    pub fn into_text(self) -> String
        ensures { (d : Data) → self ≡ tokens_of d → string_bytes result ≡ compact_text d }
    {
        let JsonText { writer } = self;
        match String::from_utf8(bytes_of(writer)) {
            Ok(text) => text,
            Err(_) => unreachable!(),
        }
    }
}

fn bytes_of(writer: Writer) -> Vec<u8>
    requires { writer.before ≡ [] }
    ensures text { result.items ≡ print writer.tokens }
    ensures utf8 { IsUtf8 result.items }
{
    writer.into_inner()
}
