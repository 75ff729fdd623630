//! Names of files: what a flow may call a file in a folder.
ghost use Rattle.std.specs.Prelude.{◌≡◌, ◌↔◌, Bool, true, false, IfOk, OnOk, IsErrOf, Some, refl, bytes_eq};
ghost use Rattle.std.specs.Ordering.{nat_cmp};
ghost use Rattle.std.specs.Cmp.{partial_equiv_from_equiv};
ghost use Rattle.std.specs.Cmp.Lexicographic.{slice_cmp, nat_list_eq_equiv, nat_list_cmp_total, texts_ties, texts_po};
ghost use Rattle.flowfile_record.specs.Name.{IsName, is_name};

use std::alloc::{AllocError, Global};
use std::cmp::Ordering;
use std::marker::Model;
use thiserror::Error;

/// The greatest length of a file's name, in bytes.
pub const NAME_MAX: usize = 255;

/// A file's name: 1 to 255 bytes of UTF-8, not `.` or `..`, with no `/` and no NUL.
#[derive(Debug, Drop)]
pub struct Name {
    text: String,
}

impl Model for Name {
    ghost use Rattle.std.specs.Prelude.{List, ℕ, string_bytes};
    ghost use Rattle.flowfile_record.specs.Name.{IsName};

    ghost Value = { List ℕ };

    ghost view = { λ name. string_bytes name.text };

    ghost invariant = { λ name. IsName (string_bytes name.text) };
}

/// Why a text is no name.
#[derive(Clone, Copy, Debug, PartialEq, Eq, Error)]
pub enum NameError {
    #[error("a file's name has 1 to 255 bytes of UTF-8, isn't `.` or `..`, and has no `/` and no NUL")]
    BadName,
    #[error("out of memory")]
    Memory,
}

impl Name {
    /// The name of this text. `BadName` comes exactly where the text breaks the rule, `Memory` where there
    /// is no memory for a copy.
    pub fn read(alloc: Global, text: &str) -> Result<Name, NameError>
        ensures name { IfOk result (λ name. name ≡ text.now) }
        ensures bad { IsErrOf result NameError.BadName ↔ (is_name text.now ≡ false) }
    {
        if !keeps_the_rule(text) {
            return Err(NameError::BadName);
        }
        match String::from_str(alloc, text) {
            Ok(text) => Ok(Name { text }),
            Err(_) => Err(NameError::Memory),
        }
    }

    /// The name as a text.
    pub fn text(&self) -> &str
        ensures text { result.now ≡ self.now }
        ensures name { IsName self.now }
    {
        self.text.as_str()
    }
}

#[tactic(auto, unfolding(crate::specs::Name::is_name))]
fn keeps_the_rule(text: &str) -> bool
    ensures { result ≡ is_name text.now }
{
    let bytes = text.as_bytes();
    if bytes.is_empty() || bytes.len() > NAME_MAX {
        return false;
    }
    if text == "." || text == ".." {
        return false;
    }
    !bytes.contains(&b'/') && !bytes.contains(&0)
}

impl Clone for Name {
    ghost is_clone = { λ name copy. copy ≡ name };

    fn clone(&self) -> Result<Name, AllocError> {
        let text = self.text.clone()?;
        Ok(Name { text })
    }
}

impl PartialEq for Name {
    ghost eq = { bytes_eq };

    ghost laws = { partial_equiv_from_equiv nat_list_eq_equiv };

    fn eq(&self, other: &Name) -> bool {
        self.text() == other.text()
    }
}

impl Eq for Name {
    ghost laws = { nat_list_eq_equiv };
}

impl PartialOrd for Name {
    ghost partial_cmp = { λ x y. Some (slice_cmp nat_cmp x y) };

    ghost laws = { texts_po };

    fn partial_cmp(&self, other: &Name) -> Option<Ordering> {
        Some(self.cmp(other))
    }
}

/// By the bytes.
impl Ord for Name {
    ghost cmp = { slice_cmp nat_cmp };

    ghost total = { nat_list_cmp_total };

    ghost matches_partial_cmp = { λ x y. refl };

    ghost matches_eq = { texts_ties };

    fn cmp(&self, other: &Name) -> Ordering {
        self.text().cmp(other.text())
    }
}
