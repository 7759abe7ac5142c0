//! Package verification codes.

ghost use Rattle.std.specs.Prelude.{◌≡◌, ℕ, List, IfOk, map};
ghost use Rattle.std.specs.List.{concat};
ghost use Rattle.std.specs.List.Sorted.{IsPermutation};
ghost use Rattle.sha1.specs.Sha1.{sha1};
ghost use Rattle.hex.specs.Hex.{encode_lower};
ghost use Rattle.desk_bom.specs.Codes.{IsCode};

use sha1::Sha1;
use std::alloc::{AllocError, Global};

// A digest as 40 hexadecimal digits in lower case.
fn digits_of(digest: &[u8; 20]) -> [u8; 40]
    ensures { result ≡ encode_lower digest.now }
{
    let mut digits = [0u8; 40];
    let Ok(()) = hex::encode_to_slice(digest.as_slice(), &mut digits) else {
        unreachable!()
    };
    digits
}

fn texts_of(alloc: Global, digests: &[[u8; 20]]) -> Result<Vec<[u8; 40]>, AllocError>
    ensures { IfOk result (λ v. v.items ≡ map encode_lower digests.now) }
{
    let mut texts = Vec::with_capacity(alloc, digests.len())?;
    for digest in digests {
        texts.push(digits_of(digest))?;
    }
    Ok(texts)
}

// The digest of some texts, joined.
fn digest_of_all(texts: &[[u8; 40]]) -> [u8; 20]
    ensures { result ≡ sha1 (concat texts.now) }
{
    let mut hasher = Sha1::new();
    for text in texts {
        hasher.update(text);
    }
    hasher.finalize()
}

/// The verification code of a package whose files have these SHA1 digests (SPDX 2.3, clause 7.9),
/// in whatever order they are given: 40 hexadecimal digits in lower case.
pub fn verification_code(alloc: Global, digests: &[[u8; 20]]) -> Result<[u8; 40], AllocError>
    ensures { IfOk result (IsCode digests.now) }
{
    let mut texts = texts_of(alloc, digests)?;
    texts.sort_unstable();
    Ok(digits_of(&digest_of_all(&texts)))
}

/// Digests have only one code.
pub fn one_code()
    ensures { (digests : List (List ℕ)) (a b : List ℕ) → IsCode digests a → IsCode digests b
        → a ≡ b }
{}

/// The code of digests is also their code in any other order.
pub fn codes_ignore_order()
    ensures { (digests others : List (List ℕ)) (code : List ℕ) → IsPermutation digests others
        → IsCode digests code → IsCode others code }
{}
