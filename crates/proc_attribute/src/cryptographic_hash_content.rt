//! The digest of a content.
ghost use Rattle.std.specs.Prelude.{◌≡◌, IfSome, is_some};
ghost use Rattle.proc_attribute.specs.Kinds.{is_cryptographic_hash_content};

use crate::passing::note;
use machine_model::Kind;
use process_session::Session;
use processor_api::{Acts, FILE, Given, TakeRule};
use sha2::{Digest, Sha256};
use std::alloc::{AllocError, Global};

/// Notes the SHA-256 of the file's content in lower-case hexadecimal digits.
#[derive(Clone, Copy)]
pub struct CryptographicHashContent;

impl CryptographicHashContent {
    /// The processor of a kind, or `None` where the kind is another processor's.
    pub fn of(kind: &Kind) -> Option<CryptographicHashContent>
        ensures of { IfSome result (λ processor. Kind.CryptographicHashContent ≡ kind.now) }
        ensures other { is_some result ≡ is_cryptographic_hash_content kind.now }
    {
        match kind {
            Kind::CryptographicHashContent => Some(CryptographicHashContent),
            _ => None,
        }
    }
}

impl Acts for CryptographicHashContent {
    ghost use Rattle.machine_model.specs.declared.kind.Kind.TheVariants.{CryptographicHashContent as OfHashContent};

    ghost kind = { λ processor. OfHashContent };

    fn takes(&self) -> TakeRule {
        TakeRule::One
    }

    fn act(
        &self,
        alloc: Global,
        session: &mut Session,
        _given: &mut Given,
    ) -> Result<(), AllocError> {
        let Ok(content) = session.content(FILE) else {
            unreachable!()
        };
        let digest = hex::encode(alloc, Sha256::digest(content))?;
        note(session, "content_SHA-256", digest.as_str())
    }
}
