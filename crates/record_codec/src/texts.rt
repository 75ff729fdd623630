//! Lists of texts.
ghost use Rattle.std.specs.Prelude.{◌≡◌, ◌+◌, ◌<◌, ◌≤◌, ◌^◌, ◌++◌, length, vec_len, vec_capacity, IsTrue, is_ok, IsErrOf};
ghost use Rattle.flowfile_record.specs.Reading.{Gives, text_at, items_at, first_at};
ghost use Rattle.record_codec.specs.Texts.{AreTexts, texts_at};
ghost use Rattle.record_codec.specs.Texts as encoding;

use flowfile_record::fields::{FieldError, put_text, put_u32, read_text, read_u32};
use flowfile_record::{Text, TextList};
use std::alloc::{AllocError, Global};

/// A list of texts, behind its count in four bytes. A text that can't be read is a field of its own.
#[tactic(auto, unfolding(flowfile_record::specs::Reading::listed_at))]
pub(crate) fn read_texts(alloc: Global, bytes: &[u8]) -> Result<(TextList, &[u8]), FieldError>
    ensures read { Gives (λ x. (x.0, x.1.now)) result (texts_at bytes.now) }
    ensures memory { IsErrOf result FieldError.Memory → IsTrue (is_ok (first_at text_at bytes.now)) }
{
    let (count, rest) = read_u32(bytes)?;
    let (texts, rest) = read_items(alloc, count, rest)?;
    Ok((TextList::from(texts), rest))
}

fn read_items(alloc: Global, count: u32, bytes: &[u8]) -> Result<(Vec<Text>, &[u8]), FieldError>
    ensures read { Gives (λ x. (x.0.items, x.1.now)) result (items_at text_at count bytes.now) }
    ensures memory { IsErrOf result FieldError.Memory → (0 < count) × IsTrue (is_ok (text_at bytes.now)) }
{
    let mut texts = Vec::new(alloc);
    let mut rest = bytes;
    for _ in 0..count {
        let (text, after) = read_own_text(alloc, rest)?;
        texts.push(text)?;
        rest = after;
    }
    Ok((texts, rest))
}

fn read_own_text(alloc: Global, bytes: &[u8]) -> Result<(Text, &[u8]), FieldError>
    ensures read { Gives (λ x. (x.0, x.1.now)) result (text_at bytes.now) }
    ensures memory { IsErrOf result FieldError.Memory → IsTrue (is_ok (text_at bytes.now)) }
{
    let (text, rest) = read_text(bytes)?;
    let text = Text::from_str(alloc, text)?;
    Ok((text, rest))
}

/// How many bytes the encoding of a list of texts has.
pub(crate) fn texts_size(texts: &[Text]) -> u64
    requires { AreTexts texts.now }
    ensures size { result ≡ length (encoding.texts texts.now) }
    ensures bound { result < 2 ^ 60 }
{
    let mut size = 4;
    for text in texts {
        size += 2 + text.as_str().len() as u64;
    }
    size
}

/// A list of texts, behind its count in four bytes.
pub(crate) fn put_texts(out: &mut Vec<u8>, texts: &[Text])
    requires texts { AreTexts texts.now }
    requires room { vec_len out.old + length (encoding.texts texts.now) ≤ vec_capacity out.old }
    ensures items { out.new.items ≡ out.old.items ++ encoding.texts texts.now }
    ensures len { vec_len out.new ≡ vec_len out.old + length (encoding.texts texts.now) }
    ensures capacity { vec_capacity out.old ≤ vec_capacity out.new }
{
    put_u32(out, texts.len() as u32);
    for text in texts {
        put_text(out, text.as_str());
    }
}
