//! Files as a session takes them.
ghost use Rattle.std.specs.Prelude.{◌≡◌, true, is_some, IfOk};
ghost use Rattle.process_session.specs.Bench.{IsWhole};
ghost use Rattle.processor_api.specs.Acts.{AreRead};

use anyhow::{Result, bail};
use flowfile_record::{Attributes, Bytes, CONTENT_MAX, Text};
use process_session::{Taken, TakenList};
use std::alloc::Global;

/// Files of these texts. Together they have to fit one content.
pub fn taken(alloc: Global, texts: &[String]) -> Result<TakenList>
    ensures { IfOk result AreRead }
{
    let mut files = TakenList::new(alloc);
    let mut room = CONTENT_MAX;
    for text in texts {
        let file = file(alloc, text.as_str())?;
        if file.size > room {
            bail!("the texts are too long");
        }
        room -= file.size;
        files.push(file)?;
    }
    Ok(files)
}

// A file of this text. No processor that is measured asks for more of its uuid than its text.
fn file(alloc: Global, text: &str) -> Result<Taken>
    ensures whole { IfOk result IsWhole }
    ensures filled { IfOk result (λ file. is_some file.bytes ≡ true) }
{
    let bytes = Bytes::from_slice(alloc, text.as_bytes())?;
    let mut attributes = Attributes::new(alloc);
    attributes.put("filename", "a.txt")?;
    attributes.put("path", "./")?;
    Ok(Taken {
        attributes,
        uuid: Text::from_str(alloc, "00000000-0000-8000-8000-000000000001")?,
        size: bytes.len(),
        bytes: Some(bytes),
    })
}
