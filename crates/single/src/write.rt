ghost use Rattle.std.specs.Prelude.{◌≡◌, ◌+◌, [], ◌∷◌, length};
ghost use Rattle.std.specs.Option.{option_map};
ghost use Rattle.model.specs.Spelling.{spell_text, spell_some, spell_attribute, flag, is_there};
ghost use Rattle.wire.specs.Told.{spanned};
ghost use Rattle.single.specs.Laid.{lay, Laid};
ghost use Rattle.single.specs.Shown.{attribute_seen};
ghost use Rattle.single.specs.Single.{content};
ghost use Rattle.single.specs.Written.{cut, cut_attribute, spelled_element, bytes_for, Writes, other_type, type_bytes, Spellable, Exact};

use crate::seen::Seen;
use crate::short::TooShort;
use crate::single::SingleRequest;
use crate::writer::Writer;
use model::codes::STRING;
use wire::span::{Span, part};

impl Writer<'_> {
    fn put(&mut self, byte: u8)
        ensures { Laid self.old self.new (byte ∷ []) }
    {
        // By index: `get_mut` of the field's buffer was tried, and the proof didn't close.
        if self.place < self.buffer.len() {
            self.buffer[self.place] = byte;
        }
        self.place = self.place.saturating_add(1);
    }

    fn put_text(&mut self, text: &[u8])
        ensures { Laid self.old self.new (spell_text (cut text.now)) }
    {
        let count = text.len().min(255);
        self.put(count as u8);
        for byte in &text[..count] {
            self.put(*byte);
        }
    }

    // A type other than string.
    fn put_type(&mut self, data_type: u8)
        ensures { Laid self.old self.new (type_bytes data_type) }
    {
        if data_type != STRING {
            self.put(data_type);
        }
    }

    fn put_issuer(&mut self, issuer: Option<Span>, bytes: &[u8])
        ensures { Laid self.old self.new (spell_some spell_text (option_map cut (option_map (spanned bytes.now) issuer))) }
    {
        if let Some(span) = issuer {
            self.put_text(part(bytes, span));
        }
    }

    fn put_attribute(&mut self, seen: Seen, bytes: &[u8], name: &[u8])
        ensures { Laid self.old self.new (spell_attribute (cut_attribute (attribute_seen bytes.now name.now seen))) }
    {
        self.put(attribute_map(seen));
        self.put(seen.id);
        self.put_type(seen.data_type);
        self.put_issuer(seen.issuer, bytes);
        self.put_text(seen.value(bytes, name));
    }
}

fn attribute_map(seen: Seen) -> u8
    ensures { result ≡ flag (other_type seen.data_type) 1 + flag (is_there seen.issuer) 2 + flag seen.included 4 }
{
    u8::from(seen.data_type != STRING)
        + u8::from(seen.issuer.is_some()) * 2
        + u8::from(seen.included) * 4
}

impl<'r, 'a, 'n> SingleRequest<'r, 'a, 'n> {
    fn put_element(&self, writer: &mut Writer<'_>, element: usize)
        ensures { Laid writer.old writer.new (spelled_element (content self.now) element) }
    {
        let Some(category) = self.category(element) else {
            return;
        };
        let count = self.attributes(element).min(255);
        if count == 0 {
            writer.put(0);
            writer.put(category);
            return;
        }
        writer.put(2);
        writer.put(category);
        writer.put(count as u8);
        // By number: the attributes that are shown stand in no slice.
        for number in 0..count {
            if let Some(seen) = self.attribute(element, number) {
                writer.put_attribute(seen, self.bytes(), self.name());
            }
        }
    }

    fn put_all(&self, buffer: &mut [u8]) -> usize
        ensures over { buffer.new ≡ lay buffer.old 0 (bytes_for (content self.now)) }
        ensures next { result ≡ length (bytes_for (content self.now)) }
    {
        let mut writer = Writer { buffer, place: 0 };
        writer.put(0);
        writer.put(self.count);
        // By number: the elements that are shown stand in no slice either.
        for element in 0..self.elements() {
            self.put_element(&mut writer, element);
        }
        writer.place
    }

    // How many bytes the request takes.
    pub fn len(&self) -> usize
        ensures count { result ≡ length (bytes_for (content self.now)) }
        ensures exact { Spellable self.now → Exact self.now }
    {
        self.put_all(&mut [])
    }

    // Writes the request at the start of the buffer and answers its length; no later byte is touched.
    pub fn write(&self, buffer: &mut [u8]) -> Result<usize, TooShort>
        ensures written { Writes (bytes_for (content self.now)) buffer.old result buffer.new }
        ensures exact { Spellable self.now → Exact self.now }
    {
        let needed = self.len();
        if buffer.len() < needed {
            return Err(TooShort { needed });
        }
        Ok(self.put_all(buffer))
    }
}
