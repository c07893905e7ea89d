ghost use Rattle.std.specs.Prelude.{◌≡◌, ◌≤◌, ◌+◌, ◌*◌, [], ◌++◌, length};
ghost use Rattle.std.specs.Fmt.{decimal};
ghost use Rattle.hex.specs.Hex.{encode_lower};
ghost use Rattle.lapi_base.specs.Output.TextParts.{counter_word, hex_word};
ghost use Rattle.lapi_io.specs.Writes.{Writes};
ghost use Rattle.lapi_report.specs.SinkWrites.{WritesUpTo};

use arrayvec::ArrayVec;
use itoa::Buffer;
use lapi_io::{Failed, Sink, write_all};
use std::marker::Model;

/// Room for one line of text, at most 4,096 bytes; no line takes memory.
#[derive(Drop)]
pub(crate) struct TextLine {
    items: ArrayVec<u8, 4096>,
}

impl Model for TextLine {
    ghost use Rattle.std.specs.Prelude.{List, ℕ, length, ◌≤◌};

    ghost Value = { List ℕ };

    ghost view = { λ line. line.items.items };

    ghost invariant = { λ line. length line.items.items ≤ 4096 };
}

impl TextLine {
    pub(crate) fn new() -> TextLine
        ensures { result ≡ [] }
    {
        TextLine {
            items: ArrayVec::new(),
        }
    }

    /// Lets go of what it holds, and begins a line with this text.
    pub(crate) fn begin(&mut self, text: &str)
        requires { length text.now ≤ 4096 }
        ensures { self.new ≡ text.now }
    {
        self.items.clear();
        self.bytes(text.as_bytes());
    }

    fn bytes(&mut self, bytes: &[u8])
        requires { length self.old + length bytes.now ≤ 4096 }
        ensures { self.new ≡ self.old ++ bytes.now }
    {
        self.items.try_extend_from_slice(bytes).unwrap();
    }

    pub(crate) fn text(&mut self, text: &str)
        requires { length self.old + length text.now ≤ 4096 }
        ensures { self.new ≡ self.old ++ text.now }
    {
        self.bytes(text.as_bytes());
    }

    /// In decimal.
    pub(crate) fn number(&mut self, value: u64)
        requires { length self.old + 20 ≤ 4096 }
        ensures text { self.new ≡ self.old ++ decimal value }
        ensures room { length self.new ≤ length self.old + 20 }
    {
        let mut digits = Buffer::new();
        self.bytes(digits.format(value).as_bytes());
    }

    /// In decimal, a number that may pass 64 bits.
    pub(crate) fn wide_number(&mut self, value: u128)
        requires { length self.old + 39 ≤ 4096 }
        ensures text { self.new ≡ self.old ++ decimal value }
        ensures room { length self.new ≤ length self.old + 39 }
    {
        let mut digits = Buffer::new();
        self.bytes(digits.format(value).as_bytes());
    }

    /// The number of a counter, or `-`.
    pub(crate) fn counter(&mut self, counter: Option<u32>)
        requires { length self.old + 20 ≤ 4096 }
        ensures text { self.new ≡ self.old ++ counter_word counter }
        ensures room { length self.new ≤ length self.old + 20 }
    {
        match counter {
            Some(number) => self.number(u64::from(number)),
            None => self.text("-"),
        }
    }

    /// In hexadecimal, at most 512 bytes.
    pub(crate) fn hex(&mut self, bytes: &[u8])
        requires few { length bytes.now ≤ 512 }
        requires room { length self.old + 2 * length bytes.now ≤ 4096 }
        ensures text { self.new ≡ self.old ++ encode_lower bytes.now }
        ensures room { length self.new ≡ length self.old + 2 * length bytes.now }
    {
        let mut digits = [0; 1024];
        let (digits, _) = digits.split_at_mut(2 * bytes.len());
        if hex::encode_to_slice(bytes, digits).is_ok() {
            self.bytes(digits);
        }
    }

    /// In hexadecimal, at most 1,024 bytes.
    fn hex_in_parts(&mut self, bytes: &[u8])
        requires few { length bytes.now ≤ 1024 }
        requires room { length self.old + 2 * length bytes.now ≤ 4096 }
        ensures text { self.new ≡ self.old ++ encode_lower bytes.now }
        ensures room { length self.new ≡ length self.old + 2 * length bytes.now }
    {
        if bytes.len() <= 512 {
            self.hex(bytes);
        } else {
            let (front, rest) = bytes.split_at(512);
            self.hex(front);
            self.hex(rest);
        }
    }

    /// In hexadecimal, at most 1,024 bytes; or `-` for none.
    pub(crate) fn optional_hex(&mut self, bytes: &[u8])
        requires few { length bytes.now ≤ 1024 }
        requires room { length self.old + 2 * length bytes.now + 1 ≤ 4096 }
        ensures text { self.new ≡ self.old ++ hex_word bytes.now }
        ensures room { length self.new ≤ length self.old + 2 * length bytes.now + 1 }
    {
        if bytes.is_empty() {
            self.text("-");
        } else {
            self.hex_in_parts(bytes);
        }
    }

    /// In hexadecimal, however many: what there is no room for is written at once.
    pub(crate) fn long_hex<K: Sink>(&mut self, bytes: &[u8], sink: &mut K) -> Result<(), Failed>
        requires { length self.old ≤ 1024 }
        ensures written { WritesUpTo K.held K.faults K.room sink.old sink.new
            (self.old ++ encode_lower bytes.now) self.new result }
        ensures short { length self.new ≤ 2048 }
    {
        let mut rest = bytes;
        while rest.len() > 512 {
            let (part, after) = rest.split_at(512);
            self.hex(part);
            self.write(sink)?;
            self.begin("");
            rest = after;
        }
        self.hex(rest);
        Ok(())
    }

    /// Writes the line whole.
    pub(crate) fn write<K: Sink>(&self, sink: &mut K) -> Result<(), Failed>
        ensures { Writes K.held K.faults K.room sink.old sink.new self.now result }
    {
        write_all(sink, self.items.as_slice())
    }
}
