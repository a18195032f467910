// The worked pairs as the calls take them.
ghost use Rattle.std.specs.Prelude.{◌≡◌};
ghost use Rattle.calls.specs.Call.{call_of};

use calls::Call;
use worked::{A_KEPT, A_READER, A_WRITER, C_KEPT, C_READER, C_WRITER, REGISTERED};

// Two tables, the bound and the rule of the bridge between them, and its kept bytes.
#[derive(Clone, Copy)]
pub struct Bridge<'a> {
    pub writer: &'a [u8],
    pub reader: &'a [u8],
    pub bound: u64,
    pub rule: u64,
    pub kept: &'a [u8],
}

impl<'a> Bridge<'a> {
    pub fn call(self) -> Call<'a>
        ensures { result ≡ call_of self.entry.writer.now self.entry.reader.now self.entry.bound self.entry.rule }
    {
        Call {
            writer: self.writer,
            reader: self.reader,
            bound: self.bound,
            rule: self.rule,
        }
    }

    pub fn with_tables(self, writer: &'a [u8], reader: &'a [u8]) -> Self
        ensures { result ≡ record self.entry { writer = writer.entry; reader = reader.entry } }
    {
        Self {
            writer,
            reader,
            ..self
        }
    }

    pub fn with_bound(self, bound: u64) -> Self
        ensures { result ≡ record self.entry { bound = bound } }
    {
        Self { bound, ..self }
    }

    pub fn with_rule(self, rule: u64) -> Self
        ensures { result ≡ record self.entry { rule = rule } }
    {
        Self { rule, ..self }
    }

    pub fn with_kept(self, kept: &'a [u8]) -> Self
        ensures { result ≡ record self.entry { kept = kept.entry } }
    {
        Self { kept, ..self }
    }
}

// Case 2.
pub const A: Bridge<'static> = Bridge {
    writer: &A_WRITER,
    reader: &A_READER,
    bound: 1,
    rule: REGISTERED,
    kept: &A_KEPT,
};

// Case 5.
pub const C: Bridge<'static> = Bridge {
    writer: &C_WRITER,
    reader: &C_READER,
    bound: 2,
    rule: REGISTERED,
    kept: &C_KEPT,
};
